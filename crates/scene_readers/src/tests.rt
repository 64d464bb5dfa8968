// The readers of a scene of two cards.
use crate::readers_of;
use piv_model::Interface::{Contact, Contactless};
use piv_scene::read_scene;
use std::test::Fail;

const SCENE: &[u8] = b"
[[card]]
name = \"A\"
contact = \"front\"
contactless = \"gate\"

[[card]]
name = \"B\"
contactless = \"door\"

[[script]]
name = \"s\"
lines = [\"reset door\", \"cut B\", \"power B\", \"connect h nowhere shared\"]
";

#[test]
fn each_reader_is_found_on_its_card(rt: HostRuntime) -> Result<(), Fail> {
    let alloc = rt.alloc();
    let scene = read_scene(alloc, SCENE)?;
    let readers = readers_of(alloc, &scene)?;
    assert!(rt; readers.find("front") == Some((0, Contact)));
    assert!(rt; readers.find("gate") == Some((0, Contactless)));
    assert!(rt; readers.find("door") == Some((1, Contactless)));
    assert!(rt; readers.find("A").is_none());
    assert!(rt; readers.find_card("A") == Some(0));
    assert!(rt; readers.find_card("B") == Some(1));
    assert!(rt; readers.find_card("door").is_none());
    Ok(())
}
