// The places of a text's labels.
ghost use Rattle.std.specs.Prelude.{◌≡◌, OnOk};
ghost use Rattle.mg_asm.specs.Labels.{IsPlaced, KeepsLabel, place_in};

use crate::items::Item;
use crate::names::Name;
use std::alloc::{AllocError, Global};
use std::collections::HashMap;

/// The place of the word that follows each label, by the bytes of the label's name.
pub type Labels = HashMap<[u8; 16], u64>;

/// The place of the word that follows a label. None if there is no such label.
pub fn place(labels: &Labels, name: &Name) -> Option<u64>
    ensures { result ≡ place_in labels.now name.now }
{
    labels.get(name.bytes()).copied()
}

/// Adds a new label with its place.
fn add(labels: &mut Labels, name: &Name, place: u64) -> Result<(), AllocError>
    ensures { OnOk result (IsPlaced labels.old labels.new name.now.bytes place) }
{
    match labels.insert(*name.bytes(), place) {
        Ok(_) => Ok(()),
        Err(_) => Err(AllocError),
    }
}

/// Adds the label with its place, if the item is one. The map then has the labels of one item more.
pub fn add_label(labels: &mut Labels, item: &Item, place: u64) -> Result<(), AllocError>
    ensures { OnOk result (KeepsLabel labels.old labels.new item.now place) }
{
    match item {
        Item::Label(name) => add(labels, name, place),
        Item::Blank => Ok(()),
        Item::Word(_) => Ok(()),
        Item::Jump(..) => Ok(()),
    }
}
