// From a text to its words.
ghost use Rattle.std.specs.Prelude.{◌≡◌, List, ◌≢◌, ◌+◌, ◌<◌, ◌≤◌, IfErr, IfOk, OnOk, Ok, Err, ◌++◌};
ghost use Rattle.std.specs.Option.{option_to_list};
ghost use Rattle.mg_asm.specs.Assembled.{assembled, behind, distance, items_of, made_at, size, words_in, words_of};
ghost use Rattle.mg_asm.specs.Labels.{AreLabels};
ghost use Rattle.mg_asm.specs.declared.items.Item.{Item};
ghost use Rattle.std.specs.List.{slice_split};
ghost use Rattle.mg_model.specs.Words.{is_newline};

use crate::faults::{AsmFault, AsmKind};
use crate::items::Item;
use crate::labels::{Labels, add_label, place};
use crate::lines::read_line;
use crate::tokens::cut;
use std::alloc::{AllocError, Global};
use std::collections::HashMap;

/// The most words that a text may have.
pub const WORD_LIMIT: u64 = 524_288;

/// The words of a text, at most 524,288, or its first fault. Memory comes only if an allocation failed.
pub fn assemble(alloc: Global, text: &[u8]) -> Result<Vec<u64>, AsmFault>
    ensures words { IfOk result (λ words. assembled text.now ≡ Ok words.items) }
    ensures fault { IfErr result (λ fault. fault ≢ AsmFault.Memory → assembled text.now ≡ Err fault) }
{
    let (items, labels) = items(alloc, text)?;
    words(alloc, &items, &labels)
}

/// The items of a text's lines, and the places of its labels.
fn items(alloc: Global, text: &[u8]) -> Result<(Vec<Item>, Labels), AsmFault>
    ensures items { IfOk result (λ p. items_of (slice_split is_newline text.now) ≡ Ok p.0.items) }
    ensures labels { IfOk result (λ p. AreLabels p.1 p.0.items) }
    ensures fault { IfErr result (λ fault. fault ≢ AsmFault.Memory → items_of (slice_split is_newline text.now) ≡ Err fault) }
{
    let mut items = Vec::new(alloc);
    let mut labels = HashMap::new(alloc);
    let mut rest = text;
    let mut count = 0;
    'lines: loop {
        let (line, more) = cut(rest, b'\n');
        let number = items.len() as u64 + 1;
        let item = match placed(&labels, count, read_line(line)) {
            Ok(item) => item,
            Err(kind) => {
                return Err(AsmFault::At { line: number, kind });
            }
        };
        if add_label(&mut labels, &item, count).is_err() {
            return Err(AsmFault::Memory);
        }
        count += size(&item);
        if items.push(item).is_err() {
            return Err(AsmFault::Memory);
        }
        match more {
            None => return Ok((items, labels)),
            Some(more) => rest = more,
        }
    }
}

/// The item that was read, if it may follow items that have these labels and `count` words. A label that is one of these may
/// not, and neither may a word too many.
fn placed(labels: &Labels, count: u64, read: Result<Item, AsmKind>) -> Result<Item, AsmKind>
    ensures { (items : List Item) → AreLabels labels.now items → count ≡ words_in items → result ≡ behind items read }
{
    match read {
        Ok(Item::Blank) => Ok(Item::Blank),
        Ok(Item::Label(name)) => match place(labels, &name) {
            Some(_) => Err(AsmKind::Twice),
            None => Ok(Item::Label(name)),
        },
        Ok(item) => {
            if count < WORD_LIMIT {
                Ok(item)
            } else {
                Err(AsmKind::TooLong)
            }
        }
        Err(kind) => Err(kind),
    }
}

/// The number of words of an item.
fn size(item: &Item) -> u64
    ensures value { result ≡ size item.now }
    ensures one { result ≤ 1 }
{
    match item {
        Item::Blank | Item::Label(_) => 0,
        Item::Word(_) | Item::Jump(..) => 1,
    }
}

/// The words of these items, which have these labels.
fn words(alloc: Global, items: &[Item], labels: &Labels) -> Result<Vec<u64>, AsmFault>
    requires { AreLabels labels.now items.now }
    ensures words { IfOk result (λ words. words_of items.now ≡ Ok words.items) }
    ensures fault { IfErr result (λ fault. fault ≢ AsmFault.Memory → words_of items.now ≡ Err fault) }
{
    let mut words = Vec::new(alloc);
    for i in 0..items.len() {
        let word = match made(labels, words.len() as u64, &items[i]) {
            Ok(word) => word,
            Err(kind) => {
                return Err(AsmFault::At {
                    line: i as u64 + 1,
                    kind,
                });
            }
        };
        if push(&mut words, word).is_err() {
            return Err(AsmFault::Memory);
        }
    }
    Ok(words)
}

/// The word that an item makes at a place, if it makes one, among items that have these labels.
fn made(labels: &Labels, here: u64, item: &Item) -> Result<Option<u64>, AsmKind>
    ensures { (items : List Item) → AreLabels labels.now items → result ≡ made_at items here item.now }
{
    match item {
        Item::Blank | Item::Label(_) => Ok(None),
        Item::Word(word) => Ok(Some(*word)),
        Item::Jump(near, name) => match place(labels, name) {
            Some(to) => Ok(Some(*near as u64 + distance(here, to) as u64 * (1 << 32))),
            None => Err(AsmKind::NoLabel),
        },
    }
}

/// Appends the word, if there is one.
pub fn push(words: &mut Vec<u64>, word: Option<u64>) -> Result<(), AllocError>
    ensures { OnOk result (words.new.items ≡ words.old.items ++ option_to_list word) }
{
    if let Some(word) = word {
        words.push(word)?;
    }
    Ok(())
}

/// The number of words from one place to another, in two's complement.
fn distance(here: u64, to: u64) -> u32
    ensures { result ≡ distance here to }
{
    (to.wrapping_sub(here) % (1 << 32)) as u32
}
