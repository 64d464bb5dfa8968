// Two scripts that end in time only where they run beside each other.
ghost use Rattle.std.specs.Prelude.{◌≡◌, ◌≤◌, ◌+◌, length, true, None, IfOk, OnOk};
ghost use Rattle.std.specs.List.{All};
ghost use Rattle.block_store.specs.Devices.{IsReady};

use crate::at_once;
use entry_text::print_answer;
use nvm_device::{Lost, MemNvm, Nvm};
use piv_ports::{MemSink, write_all};
use piv_scene::read_scene;
use scene_runs::RunOut;
use std::alloc::Global;
use std::sync::Arc;
use std::sync::atomic::{AtomicBool, Ordering};
use std::test::Fail;

const SIZE: usize = 1_114_112;

// The mark of a card in blocks, with which personalising ends.
const MARK: [u8; 4] = [b'P', b'I', b'V', b'B'];

// How often a device looks for the flag of the other before it gives up.
const LOOKS: u64 = 1_000_000_000;

// Two plain cards, and on each a script that logs in with a wrong PIN.
const TWO_CARDS: &str = "
[[card]]
name = 'A'
contact = 'front'
objects = [
  { tag = '5FC102', value = '3E00FE00' },
  { tag = '5FC109', value = '01024142FE00' },
  { tag = '7E', value = '4F0BA0000003080000100001005F2F024000' },
]

[[card]]
name = 'B'
contact = 'back'
objects = [
  { tag = '5FC102', value = '3E00FE00' },
  { tag = '5FC109', value = '01024142FE00' },
  { tag = '7E', value = '4F0BA0000003080000100001005F2F024000' },
]

[[script]]
name = 'a'
lines = [
  'connect h front shared',
  'select h A000000308000010000100',
  'login h 670D8108313131313131FFFF830180',
]

[[script]]
name = 'b'
lines = [
  'connect h back shared',
  'select h A000000308000010000100',
  'login h 670D8108313131313131FFFF830180',
]
";

const TOLD: &str = "script
1 PIV_OK
2 PIV_OK 61114F0600001000010079074F05A000000308
3 PIV_AUTHENTICATION_FAILURE 63C2
script
1 PIV_OK
2 PIV_OK 61114F0600001000010079074F05A000000308
3 PIV_AUTHENTICATION_FAILURE 63C2
";

type Flag = Arc<AtomicBool, Global>;

// How far a device is: no card stands on it, or one does, or at the card's first write it met the other or gave up.
#[derive(Clone, Copy, Debug, PartialEq, Eq)]
enum Stage {
    Unarmed,
    Armed,
    Met,
    GaveUp,
}

// A device that tells no bytes, over another. The first write to its card raises its flag, and is held until the flag
// of the other device is up.
#[derive(Drop)]
struct Meeting<N: Nvm> {
    inner: N,
    stage: Stage,
    own: Flag,
    other: Flag,
}

fn comes_up(flag: &AtomicBool) -> bool {
    for _ in 0..LOOKS {
        if flag.load(Ordering::SeqCst) {
            return true;
        }
    }
    false
}

// Whether the first bytes are the mark.
fn is_marked<N: Nvm>(device: &N) -> bool
    requires on { (N.state device.now).power.on ≡ true }
    requires size { 4 ≤ (N.state device.now).size }
{
    let mut first = [0; 4];
    device.read(0, &mut first);
    first == MARK
}

impl<N: Nvm> Meeting<N> {
    fn meet(&mut self)
        ensures { self.new.inner ≡ self.old.inner }
    {
        self.own.store(true, Ordering::SeqCst);
        self.stage = if comes_up(&self.other) {
            Stage::Met
        } else {
            Stage::GaveUp
        };
    }
}

impl<N: Nvm> Nvm for Meeting<N> {
    ghost state = { λ m. record (N.state m.inner) { bytes = None } };

    ghost row_size = { λ m. tt };

    ghost size_fits = { λ m. N.size_fits m.inner };

    ghost due_rises = { λ m. N.due_rises m.inner };

    fn size(&self) -> usize {
        self.inner.size()
    }

    fn lost(&self) -> u64 {
        self.inner.lost()
    }

    fn read(&self, place: usize, out: &mut [u8]) {
        self.inner.read(place, out);
    }

    fn write(&mut self, place: usize, bytes: &[u8]) -> Result<(), Lost> {
        if self.stage == Stage::Armed {
            self.meet();
        }
        let wrote = self.inner.write(place, bytes);
        if self.stage == Stage::Unarmed
            && wrote.is_ok()
            && self.inner.size() >= 4
            && is_marked(&self.inner)
        {
            self.stage = Stage::Armed;
        }
        wrote
    }

    fn cut(&mut self) {
        self.inner.cut();
    }

    fn power(&mut self) {
        self.inner.power();
    }
}

fn flag(alloc: Global) -> Result<Flag, Fail> {
    Ok(Arc::new(alloc, AtomicBool::new(false))?)
}

// Adds a blank device with these flags.
fn add(
    alloc: Global,
    devices: &mut Vec<Meeting<MemNvm>>,
    own: Flag,
    other: Flag,
) -> Result<(), Fail>
    requires { All (λ d. IsReady (⟦<Meeting<MemNvm> as Nvm>⟧.state d)) devices.old.items }
    ensures all { OnOk result (All (λ d. IsReady (⟦<Meeting<MemNvm> as Nvm>⟧.state d)) devices.new.items) }
    ensures count { OnOk result (length devices.new.items ≡ length devices.old.items + 1) }
{
    let inner = MemNvm::new(alloc, SIZE)?;
    devices.push(Meeting {
        inner,
        stage: Stage::Unarmed,
        own,
        other,
    })?;
    Ok(())
}

// Adds a blank device that no other knows.
fn add_apart(alloc: Global, devices: &mut Vec<Meeting<MemNvm>>) -> Result<(), Fail>
    requires { All (λ d. IsReady (⟦<Meeting<MemNvm> as Nvm>⟧.state d)) devices.old.items }
    ensures all { OnOk result (All (λ d. IsReady (⟦<Meeting<MemNvm> as Nvm>⟧.state d)) devices.new.items) }
    ensures count { OnOk result (length devices.new.items ≡ length devices.old.items + 1) }
{
    add(alloc, devices, flag(alloc)?, flag(alloc)?)
}

// Eight blank devices, of which the first two know each other's flag.
fn devices(alloc: Global) -> Result<Vec<Meeting<MemNvm>>, Fail>
    ensures eight { IfOk result (λ devices. 8 ≤ length devices.items) }
    ensures ready { IfOk result (λ devices. All (λ d. IsReady (⟦<Meeting<MemNvm> as Nvm>⟧.state d)) devices.items) }
{
    let front = flag(alloc)?;
    let back = flag(alloc)?;
    let mut devices = Vec::new(alloc);
    add(
        alloc,
        &mut devices,
        Arc::try_clone(&front)?,
        Arc::try_clone(&back)?,
    )?;
    add(alloc, &mut devices, back, front)?;
    add_apart(alloc, &mut devices)?;
    add_apart(alloc, &mut devices)?;
    add_apart(alloc, &mut devices)?;
    add_apart(alloc, &mut devices)?;
    add_apart(alloc, &mut devices)?;
    add_apart(alloc, &mut devices)?;
    Ok(devices)
}

// The answers of each script.
fn told(alloc: Global, out: &RunOut) -> Result<Vec<u8>, Fail> {
    let mut sink = MemSink::new(alloc, 65536, 65536, Vec::new(alloc)).or(Err("memory"))?;
    'scripts: for answers in &out.answers {
        write_all(&mut sink, "script\n".as_bytes()).or(Err("not written"))?;
        for (k, answer) in answers.iter().enumerate() {
            print_answer(k.saturating_add(1), answer, &mut sink).or(Err("not printed"))?;
        }
    }
    Ok(sink.taken().to_vec(alloc)?)
}

#[test]
fn two_scripts_meet_in_turns_of_two_cards(rt: HostRuntime) -> Result<(), Fail> {
    let alloc = rt.alloc();
    let scene = read_scene(alloc, TWO_CARDS.as_bytes()).or(Err("no scene"))?;
    let mut devices = devices(alloc)?;
    let Ok(out) = at_once(&rt, alloc, &scene, &mut devices) else {
        return Err(Fail::from("no run"));
    };
    assert_eq!(rt;
        devices.iter().filter(|d| d.stage == Stage::GaveUp).count(),
        0
    );
    assert_eq!(rt; devices.iter().filter(|d| d.stage == Stage::Met).count(), 2);
    let text = told(alloc, &out)?;
    assert!(rt; text.as_slice() == TOLD.as_bytes());
    Ok(())
}
