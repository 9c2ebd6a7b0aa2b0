// The call that a thread's registers spell.
ghost use Rattle.std.specs.Prelude.{◌≡◌, true};
ghost use Rattle.mg_model.specs.Turn.{script_call, script_pwadd};
ghost use Rattle.mg_script.specs.Effects.{is_spelled};

use mg_model::{Call, Rights, ThrRow};

/// The call of a script: register 0 has its number and the others its arguments, in the order of its line. Bad if the number
/// is not one of 1 to 19, or the rights of a `pwadd` are 0 or above 63.
pub fn spell(row: &ThrRow) -> Call
    ensures value { result ≡ script_call row.now }
    ensures calls { is_spelled result ≡ true }
{
    let [number, first, second, third, fourth, ..] = row.regs();
    match number {
        1 => Call::Load { a: first },
        2 => Call::Store {
            a: first,
            value: second,
        },
        3 => Call::Create {
            pages: first,
            account: second,
            password: third,
        },
        4 => Call::Delete { base: first },
        5 => Call::Info { base: first },
        6 => pwadd(first, second, None),
        7 => Call::Pwdel {
            base: first,
            password: second,
        },
        8 => Call::Entry {
            base: first,
            off: second,
        },
        9 => Call::Ext {
            base: first,
            clist: second,
            password: third,
        },
        10 => Call::Recharge {
            base: first,
            account: second,
            password: third,
        },
        11 => Call::Apdadd {
            clist: first,
            password: second,
        },
        12 => Call::Apddel { index: first },
        13 => Call::Thread { pc: first },
        14 => Call::End { thread: first },
        15 => Call::Resume { thread: first },
        16 => Call::Account {
            account: first,
            password: second,
            amount: third,
        },
        17 => Call::Pay {
            account: first,
            password: second,
            to: third,
            amount: fourth,
        },
        18 => Call::Balance {
            account: first,
            password: second,
        },
        19 => pwadd(first, second, Some(third)),
        _ => Call::Bad,
    }
}

/// The call `pwadd` with its rights as bits.
fn pwadd(base: u64, bits: u64, until: Option<u64>) -> Call
    ensures value { result ≡ script_pwadd base bits until }
    ensures calls { is_spelled result ≡ true }
{
    if bits > 63 {
        return Call::Bad;
    }
    match Rights::new(bits as u8) {
        Some(rights) => Call::Pwadd {
            base,
            rights,
            until,
        },
        None => Call::Bad,
    }
}
