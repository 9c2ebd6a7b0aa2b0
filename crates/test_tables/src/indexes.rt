// Numbers and objects in places: each call that takes memory, with enough of it.
ghost use Rattle.std.specs.Prelude.{◌≡◌, [], replicate};

use mg_frames::Frames;
use mg_index::Index;
use mg_model::ObjRow;
use mg_objects::Objects;
use std::alloc::Global;

/// The places of two numbers, if there is an index.
type Places = Option<[Option<u64>; 2]>;

/// The places of the numbers 9 and 5 among these.
fn places_in(alloc: Global, numbers: [u64; 3]) -> Option<Places> {
    match Vec::from_array(alloc, numbers) {
        Ok(numbers) => match Index::of(alloc, numbers) {
            Ok(Some(index)) => Some(Some([index.place_of(9), index.place_of(5)])),
            Ok(None) => Some(None),
            Err(_) => None,
        },
        Err(_) => None,
    }
}

// No number may have two places.
fn numbers_are_found(alloc: Global) -> bool {
    places_in(alloc, [0, 9, 4]) == Some(Some([Some(1), None]))
        && places_in(alloc, [5, 0, 5]) == Some(None)
}

fn places_are_free_at_first(alloc: Global) -> bool {
    match Index::new(alloc, 3) {
        Ok(index) => index.len() == 3 && index.pairs().is_empty(),
        Err(_) => false,
    }
}

/// The base of the one object.
const BASE: u64 = 0x1_0000_0000;

/// The payers of an object of two pages that is added among none, by its rank, its base, its last address and the next, and by its
/// base once another pays; and how many objects there are then and once it is removed.
type One = ([Option<u64>; 5], [usize; 2]);

/// The account that pays for an object.
fn payer(row: Option<ObjRow>) -> Option<u64> {
    match row {
        Some(row) => Some(row.account()),
        None => None,
    }
}

fn one(objects: &mut Objects) -> One
    requires none { objects.old ≡ [] }
{
    objects.insert(ObjRow::new(BASE, 2, 1));
    let first = payer(Some(objects.nth(0)));
    let based = payer(objects.get(BASE));
    let last = payer(objects.covering(BASE + 0x1fff));
    let next = payer(objects.covering(BASE + 0x2000));
    objects.update(ObjRow::new(BASE, 2, 3));
    let other = payer(objects.get(BASE));
    let before = objects.len();
    objects.remove(BASE);
    ([first, based, last, next, other], [before, objects.len()])
}

fn one_is_found(alloc: Global) -> bool {
    match Objects::new(alloc) {
        Ok(mut objects) => {
            let payers = [Some(1), Some(1), Some(1), None, Some(3)];
            one(&mut objects) == (payers, [1, 0])
        }
        Err(_) => false,
    }
}

// Page 9 is entered in the last of three frames. No frame holds page 0.
fn frames(frames: &mut Frames) -> [Option<u64>; 3]
    requires free { frames.old ≡ replicate 3 0 }
{
    frames.put(2, 9);
    [frames.frame_of(9), frames.frame_of(0), frames.frame_of(4)]
}

fn page_is_found(alloc: Global) -> bool {
    match Frames::new(alloc, 3) {
        Ok(mut made) => frames(&mut made) == [Some(2), None, None],
        Err(_) => false,
    }
}

fn are_right(alloc: Global) -> [bool; 4] {
    [
        page_is_found(alloc),
        numbers_are_found(alloc),
        places_are_free_at_first(alloc),
        one_is_found(alloc),
    ]
}

#[test]
fn numbers_and_an_object_are_found(rt: HostRuntime) {
    assert_eq!(rt; are_right(rt.alloc()), [true; 4]);
}
