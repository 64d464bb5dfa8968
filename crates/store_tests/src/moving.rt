// Stores move between threads where their device does.
ghost use Rattle.std.specs.Prelude.{◌≡◌};

use block_store::BlockStore;
use card_image::layout::DEVICE;
use card_image::{Image, Objects};
use nvm_device::{MemNvm, Nvm};
use piv_model::plain_start;
use std::test::Fail;
use twin_store::TwinStore;

fn moves<T: Send>(value: T) -> T
    ensures { result ≡ value }
{
    value
}

fn image_moves<N: Nvm + Send, O: Objects + Send>(image: Image<N, O>) -> Image<N, O>
    ensures { result ≡ image }
{
    moves(image)
}

fn block_store_moves<N: Nvm + Send>(store: BlockStore<N>) -> BlockStore<N>
    ensures { result ≡ store }
{
    image_moves(store)
}

fn twin_store_moves<N: Nvm + Send>(store: TwinStore<N>) -> TwinStore<N>
    ensures { result ≡ store }
{
    image_moves(store)
}

#[test]
fn a_store_moves_between_threads_where_its_device_does(rt: HostRuntime) -> Result<(), Fail> {
    let alloc = rt.alloc();
    let start = plain_start(alloc)?;
    let made = BlockStore::personalise(MemNvm::new(alloc, DEVICE)?, &start);
    let store = made.ok().ok_or("power was lost")?;
    assert_eq!(rt; block_store_moves(store).layout(), 2);
    let made = TwinStore::personalise(MemNvm::new(alloc, DEVICE)?, &start);
    let store = made.ok().ok_or("power was lost")?;
    assert_eq!(rt; twin_store_moves(store).layout(), 2);
    Ok(())
}
