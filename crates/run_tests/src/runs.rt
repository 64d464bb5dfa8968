// What a scene gives.
use crate::devices::eight;
use crate::twins::play;
use piv_bench::bench;
use piv_ports::MemSink;
use piv_scene::{Scene, read_scene};
use run_text::print_run;
use scene_runs::RunOut;
use std::alloc::Global;
use std::test::Fail;

// The room for the text of a run.
const ROOM: usize = 262_144;

// How a scene is run: by its schedule over eight devices, or by one player over a card in twin records.
#[derive(Clone, Copy, Debug)]
pub(crate) enum By {
    Bench,
    Player,
}

// A run over devices that never lose power by themselves.
fn run_bench(alloc: Global, scene: &Scene) -> Result<RunOut, Fail> {
    let mut devices = eight(alloc, Vec::new(alloc))?;
    match bench(alloc, scene, &mut devices) {
        Ok(out) => Ok(out),
        Err(_) => Err(Fail::from("no run")),
    }
}

fn text_of(alloc: Global, scene: &Scene, out: &RunOut) -> Result<Vec<u8>, Fail> {
    let answers = out.answers.as_slice();
    let histories = out.cards.as_slice();
    if answers.len() != scene.scripts() {
        return Err(Fail::from("other scripts"));
    }
    if histories.len() != scene.cards() {
        return Err(Fail::from("other cards"));
    }
    let mut sink = MemSink::new(alloc, ROOM, ROOM, Vec::new(alloc)).or(Err("memory"))?;
    print_run(scene, answers, histories, &mut sink).or(Err("not printed"))?;
    Ok(sink.taken().to_vec(alloc)?)
}

// The text of a run of a scene.
pub(crate) fn told(alloc: Global, by: By, scene: &str) -> Result<Vec<u8>, Fail> {
    let scene = read_scene(alloc, scene.as_bytes()).or(Err("no scene"))?;
    let out = match by {
        By::Bench => run_bench(alloc, &scene)?,
        By::Player => play(alloc, &scene)?,
    };
    text_of(alloc, &scene, &out)
}
