// The frames of a volume.
ghost use Rattle.std.specs.Prelude.{◌≡◌, ◌≢◌, ◌≤◌, ◌<◌, ◌==◌, if◌then◌else◌, IfOk, None, Some, false, length, map, position, replicate, slice_index, slice_set, true};
ghost use Rattle.std.specs.List.{list_any};
ghost use Rattle.mg_index.specs.Pairs.{Ascends, IsExact};
ghost use Rattle.mg_model.specs.Tests.{all_distinct};
ghost use Rattle.mg_model.specs.Volume.{bound_pages};
ghost use Rattle.mg_frames.specs.Words.{unless_within};

use mg_index::Index;
use std::alloc::{AllocError, Global};
use std::marker::Model;

/// The page that each frame holds, 0 for a free one. No page has two frames.
#[derive(Drop)]
pub struct Frames {
    pages: Index,
}

impl Model for Frames {
    ghost use Rattle.std.specs.Prelude.{ℕ, List};

    ghost Value = { List ℕ };

    ghost view = { λ frames. frames.pages };
}

impl Frames {
    /// `frames` free frames, at most 65,536. All memory that they will need is taken here.
    pub fn new(alloc: Global, frames: u64) -> Result<Frames, AllocError>
        requires { frames ≤ 65536 }
        ensures { IfOk result (λ made. made ≡ replicate frames 0) }
    {
        let pages = Index::new(alloc, frames)?;
        Ok(Frames { pages })
    }

    /// Frames that hold these pages, 0 for a free one, 65,536 at most: none if a page occurs twice. All memory that they
    /// will need is taken here.
    pub fn of(alloc: Global, pages: Vec<u64>) -> Result<Option<Frames>, AllocError>
        requires { length pages.items ≤ 65536 }
        ensures { IfOk result (λ made. made ≡ (if all_distinct (bound_pages pages.items) then Some pages.items else None)) }
    {
        match Index::of(alloc, pages)? {
            Some(pages) => Ok(Some(Frames { pages })),
            None => Ok(None),
        }
    }

    /// How many frames there are.
    pub fn len(&self) -> u64
        ensures count { result ≡ length self.now }
        ensures at_most_65536 { result ≤ 65536 }
        ensures kept { all_distinct (bound_pages self.now) ≡ true }
    {
        self.pages.len()
    }

    /// The page of each frame, 0 for a free one.
    pub fn as_slice(&self) -> &[u64]
        ensures { result.now ≡ self.now }
    {
        self.pages.as_slice()
    }

    /// Each bound page with its frame, ascending by page.
    pub fn pairs(&self) -> &[(u64, u64)]
        ensures ascending { Ascends result.now }
        ensures exact { IsExact self.now result.now }
    {
        self.pages.pairs()
    }

    /// The frame that holds a page. None holds page 0.
    pub fn frame_of(&self, page: u64) -> Option<u64>
        ensures zero { page ≡ 0 → result ≡ None }
        ensures found { page ≢ 0 → result ≡ position (λ entry. entry == page) self.now }
    {
        if page == 0 {
            return None;
        }
        self.bound_frame(page)
    }

    /// The frame that holds a page, which is not 0.
    pub fn bound_frame(&self, page: u64) -> Option<u64>
        requires { page ≢ 0 }
        ensures { result ≡ position (λ entry. entry == page) self.now }
    {
        self.pages.place_of(page)
    }

    /// As [`Frames::bound_frame`]. The frame `near`, if there is one, is looked at first.
    pub fn bound_near(&self, page: u64, near: u64) -> Option<u64>
        requires { page ≢ 0 }
        ensures { result ≡ position (λ entry. entry == page) self.now }
    {
        self.pages.place_near(page, near)
    }

    /// The page that a frame holds, 0 for a free one.
    pub fn page_at(&self, frame: u64) -> u64
        requires { frame < length self.now }
        ensures { result ≡ slice_index self.now frame }
    {
        self.pages.number_at(frame)
    }

    /// Binds a page that has no frame, and is not 0, to this frame, which is free.
    pub fn put(&mut self, frame: u64, page: u64)
        requires frame { frame < length self.old }
        requires page { page ≢ 0 }
        requires free { slice_index self.old frame ≡ 0 }
        requires unbound { list_any (λ entry. entry == page) self.old ≡ false }
        ensures { self.new ≡ slice_set self.old frame page }
    {
        self.pages.put(frame, page);
    }

    /// Binds a page that has no frame, and is not 0, to the lowest free frame, and gives that frame.
    pub fn bind(&mut self, page: u64) -> u64
        requires page { page ≢ 0 }
        requires unbound { list_any (λ entry. entry == page) self.old ≡ false }
        requires free { list_any (λ entry. entry == 0) self.old ≡ true }
        ensures lowest { position (λ entry. entry == 0) self.old ≡ Some result }
        ensures bound { self.new ≡ slice_set self.old result page }
    {
        self.pages.add(page)
    }

    /// Frees the frames of all pages in a range.
    pub fn release_range(&mut self, first: u64, pages: u64)
        ensures { self.new ≡ map (unless_within first pages) self.old }
    {
        self.pages.release_range(first, pages);
    }
}
