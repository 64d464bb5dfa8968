//! What a PIV card is: its objects, references, keys and commands, and the store that keeps them
//! (SP 800-73-4 parts 1 and 2).
#![tactic(auto)]

mod answers;
pub mod application_names;
mod command;
mod discovery;
mod found;
mod history;
mod kinds;
mod laws;
pub mod limits;
mod no_memory;
mod objects;
mod places;
mod plain;
mod reply_bytes;
mod start;
pub mod status_words;
mod store;
mod stored;

pub use answers::ApiAnswer;
pub use application_names::application_by_name;
pub use command::{Apdu, AuthFields, Command};
pub use discovery::discovery_value;
pub use found::Found;
pub use history::{ActKind, Entry, History, Refusal};
pub use kinds::{Application, Interface, KeyId, RefId, Rule, Took, use_rule};
pub use laws::sound_memories_stay_sound;
pub use no_memory::NoMemory;
pub use objects::{ObjectId, object_by_oid, object_by_tag, read_rule, tag};
pub use places::{Limit, Where};
pub use plain::plain_start;
pub use reply_bytes::{Body, ReplyBytes};
pub use start::{KeyBytes, Start, StartGlobal, StartObjects};
pub use store::{Lost, PutFault, Store};
