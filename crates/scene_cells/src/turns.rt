// The turns that a cell of a scene has.
ghost use Rattle.std.specs.Prelude.{◌≡◌, ◌≤◌, ◌*◌, length, sum_by};
ghost use Rattle.client_api.specs.Players.{line_turns as line_turns_of};
ghost use Rattle.scene_cells.specs.Turns.{scene_turns as scene_turns_of};

use piv_scene::Scene;
use script_line::{Line, Script};

// The turns that a line makes at most.
fn line_turns(line: &Line) -> usize
    ensures turns { result ≡ line_turns_of line.now }
    ensures few { result ≤ 65 }
{
    match line {
        Line::Login { .. } => 8,
        Line::Logout { .. } => 3,
        Line::Get { .. } | Line::PutHex { .. } | Line::PutFill { .. } => 65,
        Line::Admin { .. } => 2,
        Line::Version | Line::Generate | Line::Secure => 0,
        Line::Connect { .. }
        | Line::Disconnect { .. }
        | Line::Select { .. }
        | Line::Crypt { .. }
        | Line::Apdu { .. }
        | Line::Reset { .. }
        | Line::Cut { .. }
        | Line::Power { .. } => 1,
    }
}

// Those of all lines of a script.
fn script_turns(script: &Script) -> usize
    requires { length script.now.lines ≤ 4096 }
    ensures turns { result ≡ sum_by line_turns_of script.now.lines }
    ensures few { result ≤ 65 * length script.now.lines }
{
    let mut turns = 0;
    for k in 0..script.len() {
        turns += line_turns(script.line(k));
    }
    turns
}

/// The turns that the lines of all scripts make at most: so many has each cell of the scene.
pub fn scene_turns(scene: &Scene) -> usize
    ensures turns { result ≡ scene_turns_of scene.now.scripts }
    ensures few { result ≤ 1000000 }
{
    scene.holds();
    let mut turns = 0;
    for k in 0..scene.scripts() {
        turns += script_turns(scene.script(k));
    }
    turns
}
