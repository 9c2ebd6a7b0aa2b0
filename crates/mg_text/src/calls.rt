// From a call word and its arguments to a call.
ghost use Rattle.std.specs.Prelude.{◌≡◌, drop};
ghost use Rattle.mg_model.specs.Abbreviations.{pdx_of};
ghost use Rattle.mg_model.specs.Lines.{call_by, call_table, form, form_pwadd, pwadd_of};
ghost use Rattle.mg_model.specs.Words.{words};

use crate::args::{four, one, three, two};
use crate::numbers::read_number;
use crate::rights::read_rights;
use crate::words::{is_word, next_word};
use mg_model::{Call, Rights};

/// The call of a call word and of the arguments in the bytes after it; None if no call has the word.
pub fn read_call(word: &[u8], args: &[u8]) -> Option<Call>
    ensures { result ≡ call_by call_table word.now (words args.now) }
{
    if is_word(word, b"load") {
        Some(one(args).map_or(Call::Bad, |a| Call::Load { a }))
    } else if is_word(word, b"store") {
        Some(two(args).map_or(Call::Bad, |(a, value)| Call::Store { a, value }))
    } else {
        object_call(word, args)
    }
}

/// The call of a call word and its arguments, of the rows of the table after `load` and `store`; None if none of these has
/// the word. It is not inlined, so that the two most frequent calls don't pay for what it needs.
#[inline(never)]
fn object_call(word: &[u8], args: &[u8]) -> Option<Call>
    ensures { result ≡ call_by (drop 2 call_table) word.now (words args.now) }
{
    if is_word(word, b"create") {
        Some(three(args).map_or(
            Call::Bad,
            |(pages, account, password)| Call::Create {
                pages,
                account,
                password,
            },
        ))
    } else if is_word(word, b"delete") {
        Some(one(args).map_or(Call::Bad, |base| Call::Delete { base }))
    } else if is_word(word, b"info") {
        Some(one(args).map_or(Call::Bad, |base| Call::Info { base }))
    } else if is_word(word, b"pwadd") {
        Some(read_pwadd(args))
    } else if is_word(word, b"pwdel") {
        Some(two(args).map_or(Call::Bad, |(base, password)| Call::Pwdel { base, password }))
    } else if is_word(word, b"entry") {
        Some(two(args).map_or(Call::Bad, |(base, off)| Call::Entry { base, off }))
    } else if is_word(word, b"ext") {
        Some(three(args).map_or(
            Call::Bad,
            |(base, clist, password)| Call::Ext {
                base,
                clist,
                password,
            },
        ))
    } else if is_word(word, b"recharge") {
        Some(three(args).map_or(
            Call::Bad,
            |(base, account, password)| Call::Recharge {
                base,
                account,
                password,
            },
        ))
    } else {
        domain_call(word, args)
    }
}

/// The call of a call word and its arguments, of the rows from the calls of protection domains on; None if none of these has
/// the word.
fn domain_call(word: &[u8], args: &[u8]) -> Option<Call>
    ensures { result ≡ call_by (drop 10 call_table) word.now (words args.now) }
{
    if is_word(word, b"apdadd") {
        Some(two(args).map_or(
            Call::Bad,
            |(clist, password)| Call::Apdadd { clist, password },
        ))
    } else if is_word(word, b"apddel") {
        Some(one(args).map_or(Call::Bad, |index| Call::Apddel { index }))
    } else if is_word(word, b"apdlist") {
        Some(alone(Call::Apdlist, args))
    } else if is_word(word, b"pdx") {
        Some(two(args).map_or(Call::Bad, |(a, mask)| pdx(a, mask)))
    } else if is_word(word, b"ret") {
        Some(alone(Call::Ret, args))
    } else if is_word(word, b"thread") {
        Some(one(args).map_or(Call::Bad, |pc| Call::Thread { pc }))
    } else if is_word(word, b"end") {
        Some(one(args).map_or(Call::Bad, |thread| Call::End { thread }))
    } else if is_word(word, b"resume") {
        Some(one(args).map_or(Call::Bad, |thread| Call::Resume { thread }))
    } else if is_word(word, b"turn") {
        Some(alone(Call::Turn, args))
    } else if is_word(word, b"next") {
        Some(alone(Call::Next, args))
    } else {
        bank_call(word, args)
    }
}

/// The call of a call word and its arguments, of the rows of the bank's calls; None if none of these has the word.
fn bank_call(word: &[u8], args: &[u8]) -> Option<Call>
    ensures { result ≡ call_by (drop 20 call_table) word.now (words args.now) }
{
    if is_word(word, b"account") {
        Some(three(args).map_or(
            Call::Bad,
            |(account, password, amount)| Call::Account {
                account,
                password,
                amount,
            },
        ))
    } else if is_word(word, b"pay") {
        Some(four(args).map_or(
            Call::Bad,
            |(account, password, to, amount)| Call::Pay {
                account,
                password,
                to,
                amount,
            },
        ))
    } else if is_word(word, b"balance") {
        Some(two(args).map_or(
            Call::Bad,
            |(account, password)| Call::Balance { account, password },
        ))
    } else if is_word(word, b"rent") {
        Some(alone(Call::Rent, args))
    } else {
        None
    }
}

/// A call without arguments.
fn alone(call: Call, args: &[u8]) -> Call
    ensures { result ≡ form 0 (λ _. call) (words args.now) }
{
    match next_word(args) {
        None => call,
        Some(_) => Call::Bad,
    }
}

/// A mask is a number of 8 bits.
fn pdx(address: u64, mask: u64) -> Call
    ensures { result ≡ pdx_of address mask }
{
    if mask <= 255 {
        Call::Pdx {
            a: address,
            mask: mask as u8,
        }
    } else {
        Call::Bad
    }
}

/// A call of `pwadd`: a base and rights, and an end or none.
fn read_pwadd(args: &[u8]) -> Call
    ensures { result ≡ form_pwadd (words args.now) }
{
    match next_word(args) {
        None => Call::Bad,
        Some((base, more)) => match next_word(more) {
            None => Call::Bad,
            Some((rights, rest)) => match next_word(rest) {
                None => pwadd(read_number(base), read_rights(rights), Some(None)),
                Some((until, end)) => match next_word(end) {
                    None => pwadd(
                        read_number(base),
                        read_rights(rights),
                        read_number(until).map(Some),
                    ),
                    Some(_) => Call::Bad,
                },
            },
        },
    }
}

/// The call of its parts, if each was read.
fn pwadd(base: Option<u64>, rights: Option<Rights>, until: Option<Option<u64>>) -> Call
    ensures { result ≡ pwadd_of base rights until }
{
    match (base, rights, until) {
        (Some(base), Some(rights), Some(until)) => Call::Pwadd {
            base,
            rights,
            until,
        },
        _ => Call::Bad,
    }
}
