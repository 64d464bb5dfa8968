// A script: its name and its lines.
ghost use Rattle.std.specs.Prelude.{◌≡◌, ◌<◌, ◌++◌, ◌∷◌, [], length, slice_get, Some, IfOk, OnOk, OnErr};

use crate::line::Line;
use piv_model::NoMemory;
use std::alloc::Global;
use std::marker::Model;

/// A script: its name and its lines.
#[derive(Drop)]
pub struct Script {
    name: String,
    lines: Vec<Line>,
}

impl Model for Script {
    ghost use Rattle.std.specs.String.{string_bytes};
    ghost use Rattle.script_line.specs.Scripts.{ScriptData};

    ghost Value = { ScriptData };

    ghost view = { λ s. record { name = string_bytes s.name; lines = s.lines.items } };
}

impl Script {
    /// A script without lines.
    pub fn new(alloc: Global, name: &str) -> Result<Script, NoMemory>
        ensures { IfOk result (λ s. s ≡ record { name = name.now; lines = [] }) }
    {
        Ok(Script {
            name: String::from_str(alloc, name)?,
            lines: Vec::new(alloc),
        })
    }

    /// Adds a line, or leaves the script as it was.
    pub fn push(&mut self, line: Line) -> Result<(), NoMemory>
        ensures ok { OnOk result (self.new ≡ record self.old { lines = self.old.lines ++ line ∷ [] }) }
        ensures err { OnErr result (self.new ≡ self.old) }
    {
        self.lines.push(line)?;
        Ok(())
    }

    /// The name.
    pub fn name(&self) -> &str
        ensures { result.now ≡ self.now.name }
    {
        self.name.as_str()
    }

    /// The number of lines.
    pub fn len(&self) -> usize
        ensures { result ≡ length self.now.lines }
    {
        self.lines.len()
    }

    /// The line at a place, counted from 0.
    pub fn line(&self, k: usize) -> &Line
        requires { k < length self.now.lines }
        ensures { slice_get self.now.lines k ≡ Some result.now }
    {
        &self.lines[k]
    }
}
