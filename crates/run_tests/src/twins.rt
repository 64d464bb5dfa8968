// A scene of one card and one script, played over a card whose objects stand in twin records.
ghost use Rattle.std.specs.Prelude.{◌≡◌, ◌<◌, length};

use crate::devices::SIZE;
use card_cell::CardCell;
use card_image::Image;
use cell_port::CellPort;
use client_api::Player;
use nvm_device::{Fused, MemNvm};
use piv_model::Found;
use piv_scene::Scene;
use scene_cards::copy_plan;
use scene_cells::scene_turns;
use scene_readers::readers_of;
use scene_runs::RunOut;
use script_runs::play_alone;
use std::alloc::Global;
use std::marker::Brand;
use std::test::Fail;
use twin_store::Twins;

// A card in twin records, on a device that loses the writes of a plan.
type TwinImage = Image<Fused<MemNvm>, Twins>;

// The scene's first card, on a device that loses its writes after it was personalised.
fn first_cell(alloc: Global, scene: &Scene) -> Result<CardCell<TwinImage>, Fail>
    requires { 0 < length scene.now.cards }
{
    let start = scene.start(0);
    let losses = copy_plan(alloc, scene.plan(0))?;
    let blank = MemNvm::new(alloc, SIZE)?;
    let Ok(store) = Image::<MemNvm, Twins>::personalise(blank, start) else {
        return Err(Fail::from("lost"));
    };
    let worn = Fused::new(store.into_inner(), losses);
    let Found::Card(store) = TwinImage::look(worn) else {
        return Err(Fail::from("no card"));
    };
    match CardCell::new(alloc, store, &start.random, scene_turns(scene)) {
        Ok(cell) => Ok(cell),
        Err(_) => Err(Fail::from("no memory")),
    }
}

// The answers of the scene's one script, and the history of its one card.
pub(crate) fn play(alloc: Global, scene: &Scene) -> Result<RunOut, Fail> {
    if scene.cards() != 1 || scene.scripts() != 1 {
        return Err(Fail::from("more than one card and one script"));
    }
    let readers = readers_of(alloc, scene)?;
    let mut player = Player::new(alloc, scene.script(0))?;
    let cells = vec![in alloc; first_cell(alloc, scene)?]?;
    let mut port: CellPort<TwinImage, Brand> = CellPort::new(cells);
    play_alone(&mut player, &mut port, &readers)?;
    let mut cards = Vec::new(alloc);
    for cell in port.into_cells() {
        let (_, history) = cell.into_parts();
        cards.push(history)?;
    }
    let answers = vec![in alloc; player.into_answers()]?;
    Ok(RunOut { answers, cards })
}
