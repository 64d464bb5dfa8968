// Cells of a scene over devices in memory.
ghost use Rattle.std.specs.Prelude.{◌≡◌, ◌+◌, length, IfOk, OnOk};
ghost use Rattle.std.specs.List.{All};
ghost use Rattle.power_loss.specs.Due.{RisesFrom};
ghost use Rattle.power_loss.specs.Plans.{write_numbers};
ghost use Rattle.block_store.specs.Devices.{IsReady};

use nvm_device::{Fused, How, Loss, MemNvm, Nvm};
use piv_scene::{Scene, read_scene};
use scene_cells::{Raised, RunFault, cell_base, hand_back, raise, scene_turns};
use std::alloc::Global;
use std::test::Fail;

const SIZE: usize = 1_114_112;

// The PIN's retry limit stands behind the selector of the references.
const LIMIT: usize = 116;

const TWO_CARDS: &str = "
[[card]]
name = 'A'
contact = 'front'

[[card]]
name = 'B'
contact = 'back'
limit_pin = 5
losses = [{ write = 2, kind = 'after' }, { write = 7, kind = 'before' }]

[[script]]
name = 'a'
lines = ['connect h front shared', 'login h -', 'version']

[[script]]
name = 'b'
lines = ['cut B']
";

// Adds a device that is ready to those that are.
fn add<N: Nvm + Drop>(devices: &mut Vec<N>, device: N) -> Result<(), Fail>
    requires ready { IsReady (N.state device) }
    requires so_far { All (λ d. IsReady (N.state d)) devices.old.items }
    ensures all { OnOk result (All (λ d. IsReady (N.state d)) devices.new.items) }
    ensures count { OnOk result (length devices.new.items ≡ length devices.old.items + 1) }
{
    devices.push(device)?;
    Ok(())
}

// Three blank devices.
fn blank_devices(alloc: Global) -> Result<Vec<MemNvm>, Fail>
    ensures ready { IfOk result (λ devices. All (λ d. IsReady (⟦<MemNvm as Nvm>⟧.state d)) devices.items) }
    ensures count { IfOk result (λ devices. length devices.items ≡ 3) }
{
    let mut devices = Vec::new(alloc);
    add(&mut devices, MemNvm::new(alloc, SIZE)?)?;
    add(&mut devices, MemNvm::new(alloc, SIZE)?)?;
    add(&mut devices, MemNvm::new(alloc, SIZE)?)?;
    Ok(devices)
}

// Three blank devices, of which device 1 has this plan of losses.
fn failing_devices(alloc: Global, plan: Vec<Loss>) -> Result<Vec<Fused<MemNvm>>, Fail>
    requires { RisesFrom 0 (write_numbers plan.items) }
    ensures ready { IfOk result (λ devices. All (λ d. IsReady (⟦<Fused<MemNvm> as Nvm>⟧.state d)) devices.items) }
    ensures count { IfOk result (λ devices. length devices.items ≡ 3) }
{
    let mut devices = Vec::new(alloc);
    add(
        &mut devices,
        Fused::new(MemNvm::new(alloc, SIZE)?, Vec::new(alloc)),
    )?;
    add(&mut devices, Fused::new(MemNvm::new(alloc, SIZE)?, plan))?;
    add(
        &mut devices,
        Fused::new(MemNvm::new(alloc, SIZE)?, Vec::new(alloc)),
    )?;
    Ok(devices)
}

// The scene of two cards.
fn two_cards(alloc: Global) -> Result<Scene, Fail>
    ensures { IfOk result (λ scene. length scene.cards ≡ 2) }
{
    match read_scene(alloc, TWO_CARDS.as_bytes()) {
        Ok(scene) => {
            if scene.cards() == 2 {
                Ok(scene)
            } else {
                Err(Fail::from("other cards"))
            }
        }
        Err(_) => Err(Fail::from("no scene")),
    }
}

// Takes the last device: its mark, and the retry limit of its PIN.
fn last_of<N: Nvm + Drop>(devices: &mut Vec<N>) -> Option<[u8; 5]> {
    let mut device = devices.pop()?;
    device.power();
    let mut mark = [0; 4];
    let mut limit = [0; 1];
    if device.size() > LIMIT {
        device.read(0, &mut mark);
        device.read(LIMIT, &mut limit);
    }
    Some([mark[0], mark[1], mark[2], mark[3], limit[0]])
}

#[test]
fn each_card_stands_on_the_device_of_its_place(rt: HostRuntime) -> Result<(), Fail> {
    let alloc = rt.alloc();
    let scene = two_cards(alloc)?;
    let mut devices = blank_devices(alloc)?;
    let Ok(raised) = raise(alloc, &scene, &mut devices) else {
        return Err(Fail::from("no cells"));
    };
    assert_eq!(rt; devices.len(), 1);
    let Raised {
        cells,
        losses,
        mut histories,
    } = raised;
    assert_eq!(rt; losses.len(), 2);
    match cells.as_slice().first() {
        Some(cell) => assert_eq!(rt; cell.room(), 10),
        None => return Err(Fail::from("no cell")),
    }
    hand_back(cells, &mut devices, &mut histories);
    assert_eq!(rt; histories.len(), 2);
    assert_eq!(rt; last_of(&mut devices), Some([0, 0, 0, 0, 0]));
    assert_eq!(rt; last_of(&mut devices), Some([b'P', b'I', b'V', b'B', 5]));
    assert_eq!(rt; last_of(&mut devices), Some([b'P', b'I', b'V', b'B', 3]));
    assert_eq!(rt; devices.len(), 0);
    Ok(())
}

#[test]
fn a_device_that_loses_power_while_it_is_personalised_is_put_back(
    rt: HostRuntime,
) -> Result<(), Fail> {
    let alloc = rt.alloc();
    let scene = two_cards(alloc)?;
    let plan = vec![in alloc;
        Loss {
            write: 3,
            how: How::Before
        },
    ]?;
    let mut devices = failing_devices(alloc, plan)?;
    match raise(alloc, &scene, &mut devices) {
        Ok(_) => return Err(Fail::from("no fault")),
        Err(fault) => assert_eq!(rt; fault, RunFault::Device),
    }
    let losses = devices.iter().map(|device| device.lost()).max();
    assert_eq!(rt; losses, Some(1));
    assert_eq!(rt; last_of(&mut devices), Some([0, 0, 0, 0, 0]));
    assert_eq!(rt; last_of(&mut devices), Some([0, 0, 0, 0, 0]));
    assert_eq!(rt; last_of(&mut devices), Some([b'P', b'I', b'V', b'B', 3]));
    assert_eq!(rt; devices.len(), 0);
    Ok(())
}

#[test]
fn what_a_cell_began_with_is_copied_from_the_scene(rt: HostRuntime) -> Result<(), Fail> {
    let alloc = rt.alloc();
    let scene = two_cards(alloc)?;
    let base = cell_base(alloc, &scene, 1, scene_turns(&scene), 0)?;
    assert_eq!(rt; base.turns, 10);
    assert_eq!(rt; base.start.limit_pin, 5);
    Ok(())
}
