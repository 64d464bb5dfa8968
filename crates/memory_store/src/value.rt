// An object's value, in room for the longest one.
ghost use Rattle.std.specs.Prelude.{◌≡◌, ◌≤◌, length, IfOk};

use piv_model::NoMemory;
use piv_model::limits::LONGEST_OBJECT;
use std::alloc::Global;
use std::marker::Model;

#[derive(Drop)]
pub(crate) struct Value {
    bytes: Vec<u8>,
}

impl Model for Value {
    ghost use Rattle.std.specs.Prelude.{ℕ, ◌≤◌, List};
    ghost use Rattle.std.specs.Vec.{vec_len, vec_capacity};

    ghost Value = { List ℕ };

    ghost view = { λ a. a.bytes.items };

    ghost invariant = { λ a. (16384 ≤ vec_capacity a.bytes) × (vec_len a.bytes ≤ 16384) };
}

impl Value {
    pub(crate) fn new(alloc: Global, bytes: &[u8]) -> Result<Value, NoMemory>
        requires { length bytes.now ≤ 16384 }
        ensures { IfOk result (λ value. value ≡ bytes.now) }
    {
        let mut room = Vec::with_capacity(alloc, LONGEST_OBJECT)?;
        room.extend_from_slice(bytes).unwrap();
        Ok(Value { bytes: room })
    }

    pub(crate) fn set(&mut self, bytes: &[u8])
        requires { length bytes.now ≤ 16384 }
        ensures { self.new ≡ bytes.now }
    {
        self.bytes.clear();
        self.bytes.extend_from_slice(bytes).unwrap();
    }

    pub(crate) fn as_slice(&self) -> &[u8]
        ensures value { result.now ≡ self.now }
        ensures short { length result.now ≤ 16384 }
    {
        self.bytes.as_slice()
    }
}
