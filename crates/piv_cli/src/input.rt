// The scene of the input.
ghost use Rattle.std.specs.Prelude.{◌≡◌, ◌≢◌, ◌≤◌, ◌<◌, ◌+◌, length, [], Some, Ok, Err, IfOk, IfErr, IfSome, OnOk};
ghost use Rattle.piv_ports.specs.Ports.{Rises, TakesAtMost, counted};
ghost use Rattle.piv_scene.specs.Outcomes.{outcome};
ghost use Rattle.piv_cli.specs.Ends.{EndsBy, IsStopped, reach_to};
ghost use Rattle.piv_cli.specs.Outputs.{most_input};
ghost use Rattle.piv_cli.specs.Scenes.{SaysScene};

use crate::program::MOST_INPUT;
use crate::status::Status;
use piv_model::Limit;
use piv_ports::{ReadStop, Source, read_all};
use piv_scene::{Scene, SceneFault, read_scene};
use std::alloc::Global;

// The scene that the bytes say, or how the program ends without one.
fn scene_in(alloc: Global, input: &[u8]) -> Result<Scene, Status>
    ensures read { IfOk result (λ scene. outcome input.now ≡ Ok scene) }
    ensures ends { IfErr result (λ status. EndsBy status (outcome input.now)) }
    ensures stopped { IfErr result IsStopped }
    ensures no_fault { result ≢ Err Status.ReadFault }
    ensures few { length input.now ≤ most_input → result ≢ Err (Status.TooLarge Limit.Input) }
{
    match read_scene(alloc, input) {
        Ok(scene) => Ok(scene),
        Err(SceneFault::Bad(at)) => Err(Status::BadScene { at }),
        Err(SceneFault::TooLarge(what)) => Err(Status::TooLarge { what }),
        Err(SceneFault::NoMemory) => Err(Status::NoMemory),
    }
}

/// The scene that the source says, or how the program ends without one.
pub fn scene_from<S: Source>(alloc: Global, source: &mut S) -> Result<Scene, Status>
    ensures read { IfOk result (λ scene. SaysScene (S.left source.old) scene) }
    ensures at_end { OnOk result (IfSome (S.left source.old) (λ _. S.left source.new ≡ Some [])) }
    ensures ends { IfErr result (λ status. IfSome (S.left source.old) (λ input. EndsBy status (outcome input))) }
    ensures stopped { IfErr result IsStopped }
    ensures taken { TakesAtMost (reach_to result)
        (S.left source.old) (S.left source.new) (S.given source.old) (S.given source.new) }
    ensures too_large { result ≡ Err (Status.TooLarge Limit.Input)
        → IfSome (S.left source.old) (λ input. most_input < length input) }
    ensures too_large_count { result ≡ Err (Status.TooLarge Limit.Input)
        → S.given source.new ≡ counted (S.given source.old) (most_input + 1) }
    ensures read_fault { result ≡ Err Status.ReadFault → Rises (S.faults source.old) (S.faults source.new) }
    ensures no_read_fault { result ≢ Err Status.ReadFault → S.faults source.new ≡ S.faults source.old }
{
    match read_all(alloc, source, MOST_INPUT) {
        Ok(input) => scene_in(alloc, &input),
        Err(ReadStop::Failed) => Err(Status::ReadFault),
        Err(ReadStop::TooLarge) => Err(Status::TooLarge { what: Limit::Input }),
        Err(ReadStop::NoMemory) => Err(Status::NoMemory),
    }
}
