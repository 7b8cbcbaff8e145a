//! Addresses, listeners, descriptors, worker numbers and generations: values of fixed size, whose
//! calls take no memory.
#![tactic(auto)]

mod address;
mod descriptor_set;
mod descriptors;
mod file_path;
mod generation;
mod listeners;
mod numbers;
mod short_text;
mod slots;

pub use address::{ADDRESS_BYTES, Address, AddressRefusal};
pub use descriptor_set::DescriptorSet;
pub use descriptors::{DescriptorTable, FIRST_DESCRIPTOR, Full, MOST_DESCRIPTORS, Pairs};
pub use file_path::{BadFile, FILE_PATH_BYTES, FilePath};
pub use generation::Generation;
pub use listeners::{ListenerRefusal, ListenerSet, MOST_LISTENERS};
pub use numbers::{Members, Numbers, WORKER_LIMIT};
