// The bytes of replies and answers.
use piv_model::{ApiAnswer, Body, Refusal, ReplyBytes, Took};
use std::process::Abort;
use std::test::Fail;

#[test]
fn a_body_holds_just_the_bytes_that_it_was_given(rt: HostRuntime) -> Result<(), Fail> {
    let alloc = rt.alloc();
    let reply = ReplyBytes::of(&[0xAB; 256]);
    assert!(rt; reply.as_slice() == [0xAB; 256].as_slice());
    assert!(rt; Body::short(reply).as_slice() == [0xAB; 256].as_slice());
    assert!(rt; Body::short(ReplyBytes::of(&[])).as_slice().is_empty());
    assert!(rt; Body::long([1, 2, 3].to_vec(alloc)?).as_slice() == [1, 2, 3].as_slice());
    assert!(rt; Body::long(Vec::new(alloc)).as_slice().is_empty());
    Ok(())
}

fn moves<T: Send>(value: T) -> T {
    value
}

#[test]
fn answers_and_bodies_can_move_between_threads(rt: HostRuntime) {
    let done = moves(ApiAnswer::Done {
        took: Some(Took::Spent),
    });
    assert!(rt;
        matches!(
            &done,
            ApiAnswer::Done {
                took: Some(Took::Spent)
            }
        )
    );
    let off = moves(ApiAnswer::Refused { why: Refusal::Off });
    assert!(rt; matches!(&off, ApiAnswer::Refused { why: Refusal::Off }));
    let body = moves(Body::short(ReplyBytes::of(&[0x90])));
    assert!(rt; moves(body).as_slice() == [0x90].as_slice());
}
