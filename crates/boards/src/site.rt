// The site board: run i is shown the copy of site i mod 8.
ghost use Rattle.std.specs.Prelude.{◌≡◌, ℕ, ◌%◌, ◌<◌, ◌≢◌};
ghost use Rattle.boards.specs.Limits.{site_count};
ghost use Rattle.boards.specs.Faces.{Cleared, Settled, Takes, Refuses};
ghost use Rattle.boards.specs.Copies.{copy_at, Marked, NoSpan};
ghost use Rattle.boards.specs.Sites.{site_face, site_sound, SiteTold, SiteCarried, SiteDoes};
ghost use Rattle.std.proofs.Common.{rules};

use crate::board::PriceBoard;
use crate::copies::{SITES, SiteCopy, bring_all_up, bring_one_up, mark_all};
use crate::states::{PriceList, SiteBoard};

impl SiteBoard {
    // A board of no seats.
    pub fn new() -> Self
        ensures cleared { Cleared 0 (site_face result) }
        ensures safe { site_sound result }
        ensures everywhere { (c : ℕ) → c < site_count → NoSpan (copy_at result.copies c) }
    {
        SiteBoard {
            told: PriceList::cleared(0),
            copies: [SiteCopy::new(); SITES],
        }
    }
}

impl PriceBoard for SiteBoard {
    ghost face = { site_face };

    ghost sound = { site_sound };

    ghost step = { λ c a b. SiteDoes c (site_face a) (site_face b) };

    ghost few = { Prim.search rules };

    ghost behind = { Prim.search rules };

    ghost untold = { Prim.search rules };

    ghost unshown = { Prim.search rules };

    fn clear(&mut self, n: usize)
        ensures does { Cleared n (site_face self.new) }
        ensures safe { site_sound self.new }
        ensures everywhere { (c : ℕ) → c < site_count → NoSpan (copy_at self.new.copies c) }
    {
        self.told = PriceList::cleared(n);
        self.copies = [SiteCopy::new(); SITES];
    }

    // Reaches no copy: each only notes the seat in its span.
    fn tell(&mut self, seat: usize, x: u64)
        ensures safe { site_sound self.old → site_sound self.new }
        ensures own { SiteTold (site_face self.old) (site_face self.new) seat x }
        ensures noted { Takes (site_face self.old) seat x → (c : ℕ) → c < site_count → Marked seat (copy_at self.old.copies c) (copy_at self.new.copies c) }
        ensures refused { Refuses (site_face self.old) seat x → self.new.copies ≡ self.old.copies }
    {
        if self.told.tell(seat, x) {
            mark_all(&mut self.copies, seat);
        }
    }

    fn size(&self) -> usize {
        self.told.size()
    }

    fn shows(&self, run: usize, seat: usize) -> u64 {
        if run < self.size() && seat < self.size() {
            self.copies[run % SITES].row.prices[seat]
        } else {
            0
        }
    }

    fn told(&self, seat: usize) -> u64 {
        self.told.at(seat)
    }

    // Brings the copy of site r mod 8 up to the told prices.
    fn carry(&mut self, r: usize)
        ensures safe { site_sound self.old → site_sound self.new }
        ensures own { SiteCarried (site_face self.old) (site_face self.new) r }
        ensures here { NoSpan (copy_at self.new.copies (r % site_count)) }
        ensures elsewhere { (c : ℕ) → c ≢ r % site_count → copy_at self.new.copies c ≡ copy_at self.old.copies c }
    {
        bring_one_up(&mut self.copies, &self.told.row, r % SITES);
    }

    // Brings every copy up to the told prices.
    fn settle(&mut self)
        ensures safe { site_sound self.old → site_sound self.new }
        ensures own { Settled (site_face self.old) (site_face self.new) }
        ensures everywhere { (c : ℕ) → c < site_count → NoSpan (copy_at self.new.copies c) }
    {
        bring_all_up(&mut self.copies, &self.told.row);
    }
}
