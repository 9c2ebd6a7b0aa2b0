// The gaps that ranges of pages leave, where ranges touch each other, the first page or the last one.
ghost use Rattle.mg_ranges.specs.Gaps.{AreTaken};

use mg_model::limits::{FIRST_PAGE, PAGE_END};
use mg_ranges::Ranges;
use std::alloc::Global;

/// How many pages there are.
const PAGES: u64 = PAGE_END - FIRST_PAGE;

/// Whether these are the gaps that the ranges leave.
fn leaves(alloc: Global, taken: &[(u64, u64)], gaps: &[(u64, u64)]) -> bool
    requires { AreTaken taken.now }
{
    match Ranges::of(alloc, taken) {
        Ok(ranges) => ranges.gaps() == gaps,
        Err(_) => false,
    }
}

/// The same of ranges at the first page.
fn first_pages_leave(alloc: Global) -> bool {
    leaves(alloc, &[], &[(FIRST_PAGE, PAGES)])
        && leaves(alloc, &[(FIRST_PAGE, 1)], &[(FIRST_PAGE + 1, PAGES - 1)])
        && leaves(
            alloc,
            &[(FIRST_PAGE + 1, 1)],
            &[(FIRST_PAGE, 1), (FIRST_PAGE + 2, PAGES - 2)],
        )
}

/// The same of ranges that touch, and of ranges with one page between them.
fn neighbours_leave(alloc: Global) -> bool {
    leaves(
        alloc,
        &[(FIRST_PAGE, 2), (FIRST_PAGE + 2, 3)],
        &[(FIRST_PAGE + 5, PAGES - 5)],
    ) && leaves(
        alloc,
        &[(FIRST_PAGE, 2), (FIRST_PAGE + 3, 3)],
        &[(FIRST_PAGE + 2, 1), (FIRST_PAGE + 6, PAGES - 6)],
    )
}

/// The same of ranges at the last page, and of one that has all pages.
fn last_pages_leave(alloc: Global) -> bool {
    leaves(alloc, &[(PAGE_END - 1, 1)], &[(FIRST_PAGE, PAGES - 1)])
        && leaves(
            alloc,
            &[(FIRST_PAGE, 1), (PAGE_END - 2, 1)],
            &[(FIRST_PAGE + 1, PAGES - 3), (PAGE_END - 1, 1)],
        )
        && leaves(alloc, &[(FIRST_PAGE, PAGES)], &[])
}

#[test]
fn gaps_are_what_ranges_leave(rt: HostRuntime) {
    let alloc = rt.alloc();
    let are_left = [
        first_pages_leave(alloc),
        neighbours_leave(alloc),
        last_pages_leave(alloc),
    ];
    assert_eq!(rt; are_left, [true; 3]);
}
