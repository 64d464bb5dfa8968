// Scenes that are read, and scenes that are refused.
ghost use Rattle.std.specs.Prelude.{◌≡◌};

use crate::{Scene, make_scene, read_scene};
use piv_model::Interface::{Contact, Contactless};
use piv_model::application_names;
use script_line::{Line, Script};
use std::alloc::Global;
use std::test::Fail;

// The scene in which one script logs in and another doesn't.
const TWO_SCRIPTS: &str = "
[[card]]
name = 'A'
contact = 'front'
contactless = 'gate'
objects = [
  { tag = '5FC102', value = '3E00FE00' },
  { tag = '5FC109', value = '01024142FE00' },
  { tag = '7E', value = '4F0BA0000003080000100001005F2F024000' },
]

[[script]]
name = 'a'
lines = [
  'connect h front shared',
  'select h A000000308000010000100',
  'login h 670D8108313233343536FFFF830180',
  'get h 2.16.840.1.101.3.7.2.48.1',
]

[[script]]
name = 'b'
lines = [
  'connect h front shared',
  'select h A00000030800001000',
  'get h 2.16.840.1.101.3.7.2.48.1',
]
";

// Each row is an answer and a scene. In a scene `;` ends a line, `@` is a card without further keys, `%` begins one, and
// `<9 a#>` is a0 to a8. The keys have the forms and the limits that docs/FORMATS.md lists.
const PLACES: &str = "
    read: @
    read: card = [{ name = 'A', contact = 'f' }]
    read: @;unknown = 1;[[script]];name = 'a';other = true
    read: %limit_pin = 15;limit_puk = 15;limit_global = 15;budget = 2048
    read: %random = 'FFeeDDccBBaa99887766554433221100ffeeddccbbaa99887766554433221100'
    read: %objects = [{ tag = '7e', value = '4f0ba0000003080000100001005f2f024000' }]
    read: %global = '363534333231FFFF';objects = [{ tag = '7E', value = '4F0BA0000003080000100001005F2F026010' }]
    read: %losses = [{ write = 2, kind = 'torn', pattern = 'ab' }, { write = 3, kind = 'before' }]
    read: @;script = [{ name = 'a', lines = ['connect h elsewhere shared', 'reset f', 'cut A', 'power A'] }];schedule = [0, 0]
    read: @;x = <80 [><80 ]>
    Bad(NotToml): [[card
    Bad(NotToml): @;x = 1;x = 2
    Bad(NotToml): @;x = 9223372036854775808
    Bad(NotToml): @;x = <81 [><81 ]>
    Bad(NotToml): card = [];script = 1;x
    Bad(Cards): x = 1
    Bad(Cards): card = []
    Bad(Cards): card = { name = 'A', contact = 'f' }
    Bad(Cards): card = [{ name = 'A', contact = 'f' }, 1]
    Bad(Cards): card = [{ name = 'A' }, 1]
    Bad(Cards): card = [];script = 1;schedule = 1
    Bad(Card(0)): card = [{ contact = 'f' }]
    Bad(Card(0)): card = [{ name = 'A' }]
    Bad(Card(0)): card = [{ name = 'a.b', contact = 'f' }]
    Bad(Card(0)): card = [{ name = 'A', contact = '<33 f>' }]
    Bad(Card(0)): card = [{ name = 'A', contact = 1 }]
    Bad(Card(0)): card = [{ name = 'A', contact = 'f', contactless = 'f' }]
    Bad(Card(0)): card = [{ name = 'A' }, { name = 'A' }]
    Bad(Card(1)): card = [{ name = 'A', contact = 'f' }, { name = 'A', contact = 'g' }]
    Bad(Card(1)): card = [{ name = 'A', contact = 'f' }, { name = 'B', contactless = 'f' }]
    Bad(Card(0)): %random = '<31 00>'
    Bad(Card(0)): %pin = '313233343536FF38'
    Bad(Card(0)): %pin = 313233343536
    Bad(Card(0)): %puk = '31323334353637'
    Bad(Card(0)): %limit_pin = 0
    Bad(Card(0)): %limit_puk = -1
    Bad(Card(0)): %global = '3132333435FFFFFF'
    Bad(Card(0)): %limit_global = 0
    Bad(Card(0)): %admin = '<17 00>'
    Bad(Card(0)): %card_auth = '<16 0g>'
    Bad(Card(0)): %budget = 0
    Bad(Card(0)): %budget = 1.5
    Bad(Card(0)): %objects = 1
    Bad(Card(0)): %objects = [{ tag = '5FC102' }]
    Bad(Card(0)): %objects = [{ tag = '5FC102', value = '' }]
    Bad(Card(0)): %objects = [{ tag = '5FC102', value = '0' }]
    Bad(Card(0)): %objects = [{ tag = '5FC102', value = '00', size = 1 }]
    Bad(Card(0)): %objects = [{ tag = '5FC102', value = '00', fill = '00' }]
    Bad(Card(0)): %objects = [{ tag = '5FC102', size = 1 }]
    Bad(Card(0)): %objects = [{ tag = '5FC102', size = 0, fill = '00' }]
    Bad(Card(0)): %objects = [{ tag = '5FC102', size = 1, fill = '0000' }]
    Bad(Card(0)): %objects = [{ tag = '5FC1FF', value = '00' }]
    Bad(Card(0)): %objects = [{ tag = '5FC102', value = '00' }, { tag = '5fc102', value = '00' }]
    Bad(Card(0)): %objects = [{ tag = '7E', size = 18, fill = '4F' }]
    Bad(Card(0)): %objects = [{ tag = '7E', value = '4F0BA0000003080000100001005F2F026010' }]
    Bad(Card(0)): %losses = [{ write = 0, kind = 'before' }]
    Bad(Card(0)): %losses = [{ write = 1, kind = 'lost' }]
    Bad(Card(0)): %losses = [{ write = 1, kind = 'torn' }]
    Bad(Card(0)): %losses = [{ write = 1, kind = 'after', pattern = '00' }]
    Bad(Card(0)): %losses = [{ write = 1, kind = 'torn', pattern = '' }]
    Bad(Card(0)): %losses = [{ write = 1, kind = 'torn', pattern = '<17 00>' }]
    Bad(Card(0)): %losses = [{ write = 2, kind = 'after' }, { write = 2, kind = 'after' }]
    Bad(Script(0)): @;script = 1
    Bad(Script(0)): @;script = [{ name = 'a' }, { name = 'b' }, 1]
    Bad(Script(0)): @;script = [{ lines = [] }]
    Bad(Script(0)): @;script = [{ name = 'a', lines = 'version' }]
    Bad(Script(1)): @;script = [{ name = 'a' }, { name = 'a' }]
    Bad(Script(1)): @;script = [{ name = 'a', lines = ['nothing'] }, { name = 'b', lines = [1] }]
    Bad(Line(0, 2)): @;script = [{ name = 'a', lines = ['version', 'version ', 'x'] }, { name = 'b', lines = ['x'] }]
    Bad(Line(1, 1)): @;script = [{ name = 'a' }, { name = 'b', lines = ['cut B'] }]
    Bad(Line(0, 1)): @;script = [{ name = 'a', lines = ['power f'] }]
    Bad(Line(0, 1)): @;script = [{ name = 'a', lines = ['reset A'] }]
    Bad(Schedule): @;schedule = 1
    Bad(Schedule): @;schedule = ['0']
    Bad(Schedule): @;schedule = [0]
    Bad(Schedule): @;schedule = [0, 1, -1];script = [{ name = 'a' }, { name = 'b' }]
    Bad(Card(0)): schedule = 1;script = 1;%limit_pin = 0
    Bad(Script(0)): schedule = 1;script = 1;%limit_pin = 16
    Bad(Line(0, 1)): schedule = 1;script = [{ name = 'a', lines = ['nothing'] }];%limit_pin = 16
    Bad(Schedule): schedule = 1;%limit_pin = 16
";

const LIMITS: &str = "
    read: card = [<8 { name = 'A#', contact = 'f#' },>]
    TooLarge(Cards): card = [<9 { name = 'A#', contact = 'f#', limit_pin = 16 },>]
    TooLarge(Cards): card = [<9 { name = 'A#', contact = 'f#' },>];script = [<65 { name = 'a#' },>]
    read: @;script = [<64 { name = 'a#' },>]
    TooLarge(Scripts): @;script = [<65 { name = 'a#' },>]
    TooLarge(Scripts): @;script = [{ name = 'a', lines = [<4097 'version',>] },<64 { name = 'a#' },>]
    read: @;script = [{ name = 'a', lines = [<4096 'version',>] }]
    TooLarge(Lines): @;script = [{ name = 'a', lines = [<4096 'version',>] }, { name = 'b', lines = ['version'] }]
    TooLarge(Lines): @;script = [{ name = 'a', lines = [<4097 'version',>] }];schedule = [<65537 0,>]
    read: @;script = [{ name = 'a' }];schedule = [<65536 0,>]
    TooLarge(Schedule): script = [{ name = 'a' }];schedule = [<65537 0,>];%limit_pin = 16
    TooLarge(LimitPin): %limit_puk = 16;limit_pin = 16
    TooLarge(LimitPuk): %limit_global = 16;limit_puk = 16
    TooLarge(LimitGlobal): %budget = 2049;limit_global = 16
    TooLarge(Budget): %losses = [<4097 { write = 1#, kind = 'after' },>];budget = 2049
    read: %losses = [<4096 { write = 1#, kind = 'after' },>]
    TooLarge(Losses): %objects = [{ tag = '5FC102', size = 16385, fill = '00' }];losses = [<4097 { write = 1#, kind = 'after' },>]
    read: %objects = [{ tag = '5FC102', size = 16384, fill = '00' }]
    TooLarge(Object): %budget = 1;objects = [{ tag = '5FC102', size = 16385, fill = '00' }]
    read: %budget = 3;objects = [{ tag = '5FC102', size = 128, fill = '00' }, { tag = '5FC103', value = '00' }]
    TooLarge(Room): %budget = 3;objects = [{ tag = '5FC102', size = 129, fill = '00' }, { tag = '5FC103', value = '00' }]
    TooLarge(Room): %budget = 1;objects = [{ tag = '5FC102', value = '<65 00>' }];[[card]];name = 'B';contact = 'g';limit_pin = 16
    TooLarge(Room): script = [{ name = 'a', lines = ['put h 1 fill 16513 00'] }];%budget = 1;objects = [{ tag = '5FC102', size = 65, fill = '00' }]
    read: @;script = [{ name = 'a', lines = ['put h 1 fill 16512 00', 'put h 1 hex <16512 00>'] }]
    TooLarge(Put): @;script = [{ name = 'a', lines = ['put h 1 fill 16513 00'] }]
    TooLarge(Put): @;script = [{ name = 'a', lines = ['put h 1 hex <16513 00>', <1016 'put h 1 fill 16512 00',>] }]
    read: @;script = [{ name = 'a', lines = [<1016 'put h 1 fill 16512 00',> 'put h 1 fill 1024 00'] }]
    TooLarge(Puts): @;script = [{ name = 'a', lines = [<1016 'put h 1 fill 16512 00',> 'put h 1 fill 1025 00', 'crypt h 08 9B <256 00>'] }]
    read: @;script = [{ name = 'a', lines = ['crypt h 08 9B <255 00>', 'apdu h <512 00>', 'login h <2128 00>', 'select h <16 00>'] }]
    TooLarge(Crypt): @;script = [{ name = 'a', lines = ['apdu h <513 00>', 'crypt h 08 9B <256 00>'] }]
    TooLarge(Apdu): @;script = [{ name = 'a', lines = ['login h <2129 00>', 'apdu h <513 00>'] }]
    TooLarge(Login): @;script = [{ name = 'a', lines = ['select h <17 00>', 'login h <2129 00>'] }]
    TooLarge(Aid): @;script = [{ name = 'a', lines = ['select h <17 00>'] }]
";

// Some megabytes of names, each of which differs from all others.
const NAMES: &str = "
    TooLarge(Scripts): @;script = [<5000 { name = 'a#' },>]
    TooLarge(Cards): card = [<5000 { name = 'A#', contact = 'f#', contactless = 'g#' },>]
    Bad(Line(0, 5001)): @;script = [{ name = 'a', lines = [<5000 'cut A',> 'cut B'] }]
    Bad(Card(0)): %objects = [<5000 { tag = '5FC102', value = '00' },>]
";

// So many copies of an item, in each of which `#` is its number.
fn add_copies(alloc: Global, text: &mut String, count: u32, item: &str) -> Result<(), Fail> {
    for number in 0..count {
        for c in item.chars() {
            match c {
                '#' => text.push_str(format!(in alloc; "{number}")?.as_str())?,
                _ => text.push(c)?,
            }
        }
    }
    Ok(())
}

fn add_plain(text: &mut String, part: &str) -> Result<(), Fail> {
    for c in part.chars() {
        match c {
            ';' => text.push('\n')?,
            '@' => text.push_str("card = [{ name = 'A', contact = 'f' }]")?,
            '%' => text.push_str("[[card]]\nname = 'A'\ncontact = 'f'\n")?,
            _ => text.push(c)?,
        }
    }
    Ok(())
}

// The scene of a row.
fn spelled(alloc: Global, row: &str) -> Result<String, Fail> {
    let mut text = String::new(alloc);
    for part in row.split('<') {
        match part.split_once('>') {
            Some((copies, rest)) => {
                let (count, item) = copies.split_once(' ').ok_or("no number of copies")?;
                let count: u32 = count.parse().or(Err("no number"))?;
                add_copies(alloc, &mut text, count, item)?;
                add_plain(&mut text, rest)?;
            }
            None => add_plain(&mut text, part)?,
        }
    }
    Ok(text)
}

fn answer(alloc: Global, scene: &[u8]) -> Result<String, Fail> {
    match read_scene(alloc, scene) {
        Ok(_) => Ok("read".to_string(alloc)?),
        Err(fault) => Ok(format!(in alloc; "{fault:?}")?),
    }
}

fn expect(alloc: Global, rows: &str) -> Result<(), Fail> {
    for row in rows.lines() {
        if let Some((want, scene)) = row.trim().split_once(": ") {
            let text = spelled(alloc, scene)?;
            let answer = answer(alloc, text.as_bytes())?;
            let is_wanted = answer.as_str() == want;
            is_wanted.then_some(()).ok_or("another answer")?;
        }
    }
    Ok(())
}

#[test]
fn the_first_place_that_is_wrong_is_told(rt: HostRuntime) -> Result<(), Fail> {
    expect(rt.alloc(), PLACES)
}

#[test]
fn the_first_limit_that_is_passed_is_told(rt: HostRuntime) -> Result<(), Fail> {
    expect(rt.alloc(), LIMITS)
}

#[test]
fn a_name_is_found_among_very_many(rt: HostRuntime) -> Result<(), Fail> {
    expect(rt.alloc(), NAMES)
}

fn scene_of(alloc: Global, row: &str) -> Result<Scene, Fail> {
    let text = spelled(alloc, row)?;
    Ok(read_scene(alloc, text.as_bytes()).or(Err("a fault"))?)
}

const FIRST_ADMIN: &[u8; 16] = b"\x10\x11\x12\x13\x14\x15\x16\x17\x18\x19\x1A\x1B\x1C\x1D\x1E\x1F";

const FIRST_CARD_AUTH: &[u8; 16] =
    b"\x00\x01\x02\x03\x04\x05\x06\x07\x08\x09\x0A\x0B\x0C\x0D\x0E\x0F";

#[test]
fn what_is_absent_is_as_in_the_plain_card(rt: HostRuntime) -> Result<(), Fail> {
    let scene = scene_of(rt.alloc(), "@")?;
    assert_eq!(rt; scene.cards(), 1);
    let start = scene.start(0);
    assert!(rt; start.pin == *b"123456\xFF\xFF" && start.puk == *b"12345678");
    assert!(rt; start.limit_pin == 3 && start.limit_puk == 3 && start.global.limit == 0);
    assert!(rt; start.admin.algorithm == 0x08 && start.card_auth.algorithm == 0x08);
    assert!(rt; start.admin.bytes.starts_with(FIRST_ADMIN));
    assert!(rt; start.card_auth.bytes.starts_with(FIRST_CARD_AUTH));
    assert!(rt; start.budget == 2048 && start.random == [0; 32] && start.objects.len() == 0);
    assert!(rt; scene.card_name(0) == "A" && scene.plan(0).is_empty());
    assert!(rt; scene.reader(0, Contact) == Some("f") && scene.reader(0, Contactless).is_none());
    assert!(rt; scene.scripts() == 0 && scene.schedule().is_empty());
    let scene = scene_of(rt.alloc(), "%global = '363534333231FFFF'")?;
    assert_eq!(rt; scene.cards(), 1);
    assert!(rt; scene.start(0).global.limit == 3);
    Ok(())
}

const WHOLE_CARD: &str =
    "%contactless = 'g';pin = '3635343332313938';puk = '<8 5a>';limit_pin = 4;limit_puk = 5
    global = '373533313634FFFF';limit_global = 6;admin = '<24 8A>';card_auth = '<32 c1>';budget = 7;random = '<32 9D>'
    objects = [{ tag = '5fc102', size = 300, fill = '5A' }, { tag = '5FC121', value = 'aB' }]
    losses = [{ write = 2, kind = 'torn', pattern = 'ab' }, { write = 9, kind = 'after' }]";

#[test]
fn a_card_begins_with_what_its_keys_say(rt: HostRuntime) -> Result<(), Fail> {
    let scene = scene_of(rt.alloc(), WHOLE_CARD)?;
    assert_eq!(rt; scene.cards(), 1);
    let start = scene.start(0);
    assert!(rt; start.pin == *b"65432198" && start.puk == [0x5A; 8]);
    assert!(rt; start.limit_pin == 4 && start.limit_puk == 5);
    assert!(rt; start.global.limit == 6 && start.global.pin == *b"753164\xFF\xFF");
    assert!(rt; start.admin.algorithm == 0x0A && start.admin.bytes.starts_with(&[0x8A; 24]));
    assert!(rt; start.admin.bytes.ends_with(&[0; 8]));
    assert!(rt; start.card_auth.algorithm == 0x0C && start.card_auth.bytes == [0xC1; 32]);
    assert!(rt; start.budget == 7 && start.random == [0x9D; 32]);
    assert_eq!(rt; start.objects.len(), 2);
    let (filled, value) = start.objects.value(0);
    assert!(rt; filled.place() == 1 && value == [0x5A; 300].as_slice());
    let (given, value) = start.objects.value(1);
    assert!(rt; given.place() == 32 && value == [0xAB].as_slice());
    assert_eq!(rt; scene.plan(0).len(), 2);
    assert!(rt; scene.plan(0)[0].write == 2 && scene.plan(0)[1].write == 9);
    Ok(())
}

fn shares<T: Sync>(value: &T) -> &T
    ensures { result.now ≡ value.now }
{
    value
}

#[test]
fn scripts_keep_their_order_and_a_scene_can_be_shared(rt: HostRuntime) -> Result<(), Fail> {
    let scene = read_scene(rt.alloc(), TWO_SCRIPTS.as_bytes()).or(Err("a fault"))?;
    let scene = shares(&scene);
    assert_eq!(rt; scene.cards(), 1);
    assert_eq!(rt; shares(&scene.start(0).objects).len(), 3);
    assert_eq!(rt; scene.scripts(), 2);
    let (first, second) = (scene.script(0), shares(scene.script(1)));
    assert!(rt; first.name() == "a" && first.len() == 4);
    assert!(rt; second.name() == "b" && second.len() == 3);
    Ok(())
}

// Each part of the scene is read to an answer.
fn read_each_part(alloc: Global, scene: &[u8]) -> Result<(), Fail> {
    for size in (0..scene.len()).step_by(10) {
        answer(alloc, scene.get(..size).unwrap_or(&[]))?;
    }
    Ok(())
}

#[test]
fn a_scene_that_is_cut_off_has_an_answer(rt: HostRuntime) -> Result<(), Fail> {
    read_each_part(rt.alloc(), TWO_SCRIPTS.as_bytes())
}

#[test]
fn bytes_that_are_no_document_are_told(rt: HostRuntime) -> Result<(), Fail> {
    let alloc = rt.alloc();
    let marked = "\u{FEFF}card = [{ name = 'A', contact = 'f' }]";
    assert!(rt; answer(alloc, marked.as_bytes())?.as_str() == "read");
    assert!(rt; answer(alloc, &[0xFF])?.as_str() == "Bad(NotToml)");
    let mut brackets = vec![in alloc; b'['; 8_388_608]?;
    assert!(rt; answer(alloc, &brackets)?.as_str() == "Bad(NotToml)");
    brackets.push(b'[')?;
    assert!(rt; answer(alloc, &brackets)?.as_str() == "TooLarge(Input)");
    Ok(())
}

// The kind of each line of the scene that the number 2026 gives, and the size of a `put`, as another program found them.
// Before them stand the reader that each script connects to, and its selection.
const KINDS: &str = "
    front front front gate PIV PIV PIV PIV
    4 6:545 1 2 6:891 0 3 0 6:868 1 4 6:818 5 6:627 1 2 7 2 4 1
    5 5 3 5 2 5 0 7 4 0 2 5 3 6:506 3 0 6:92 4 5 7
    6:916 0 7 5 2 4 4 3 2 3 3 1 3 5 6:873 3 0 0 6:474 5
    4 2 5 6:610 0 7 1 5 6:45 2 5 6:201 3 5 7 3 4 5 4 1
    5 2 7 1 5 4 0 0 5 3 4 6:532 7 5 0 1 6:866 3 2 2
";

// The kind of a line of the generated scene.
fn kind_of(alloc: Global, line: &Line) -> Result<String, Fail> {
    let kind = match line {
        Line::Connect {
            h: _,
            reader,
            shared: true,
        } => match reader.as_str() {
            "front" => "front",
            "gate" => "gate",
            _ => "another reader",
        },
        Line::Select { h: _, aid } => {
            if aid.as_slice() == application_names::FULL.as_slice() {
                "PIV"
            } else {
                "another application"
            }
        }
        Line::Get { h: _, oid } => match oid.as_str() {
            "2.16.840.1.101.3.7.2.48.0" => "0",
            "2.16.840.1.101.3.7.2.48.1" => "1",
            _ => "another object",
        },
        Line::Login { h: _, auth } => match auth.as_slice() {
            b"\x67\x0D\x81\x08123456\xFF\xFF\x83\x01\x80" => "2",
            b"\x67\x0D\x81\x08999999\xFF\xFF\x83\x01\x80" => "3",
            _ => "another authenticator",
        },
        Line::Logout { h: _ } => "4",
        Line::Admin {
            h: _,
            algorithm: 0x08,
            key: _,
        } => "5",
        Line::PutFill {
            h: _,
            oid: _,
            size,
            fill: 0x5A,
        } => return Ok(format!(in alloc; "6:{size}")?),
        Line::Crypt {
            h: _,
            algorithm: 0x08,
            key: 0x9E,
            input: _,
        } => "7",
        _ => "another line",
    };
    Ok(kind.to_string(alloc)?)
}

fn line_at(script: &Script, k: usize) -> Result<&Line, Fail> {
    if k < script.len() {
        Ok(script.line(k))
    } else {
        Err("too few lines")?
    }
}

// The kinds of the lines, one of each script in turn.
fn expect_kinds(alloc: Global, scene: &Scene, kinds: &str) -> Result<(), Fail> {
    let mut k = 0;
    let mut n = 0;
    for want in kinds.split_whitespace() {
        if k >= scene.scripts() {
            return Err("too few scripts")?;
        }
        let kind = kind_of(alloc, line_at(scene.script(k), n)?)?;
        let is_wanted = kind.as_str() == want;
        is_wanted.then_some(()).ok_or("another kind")?;
        if k == 3 {
            n = n.saturating_add(1);
        }
        k = (k + 1) % 4;
    }
    Ok(())
}

#[test]
fn a_number_gives_a_scene(rt: HostRuntime) -> Result<(), Fail> {
    let alloc = rt.alloc();
    let scene = make_scene(alloc, 100, 2026).or(Err("memory"))?;
    assert!(rt; scene.cards() == 1 && scene.scripts() == 4 && scene.schedule().is_empty());
    let start = scene.start(0);
    assert!(rt; start.limit_pin == 15 && start.limit_puk == 15 && start.objects.len() == 3);
    assert!(rt; scene.card_name(0) == "A" && scene.plan(0).is_empty());
    assert!(rt; scene.reader(0, Contact) == Some("front"));
    assert!(rt; scene.reader(0, Contactless) == Some("gate"));
    for (k, name) in ["s0", "s1", "s2", "s3"].iter().enumerate() {
        assert!(rt; k < scene.scripts() && scene.script(k).name() == *name);
        assert!(rt; scene.script(k).len() == 27);
    }
    expect_kinds(alloc, &scene, KINDS)
}
