ghost use Rattle.std.specs.Prelude.{◌≡◌, ◌^◌, not, ◌&&◌, ◌||◌, ◌==◌, nat_lt};
ghost use Rattle.rules.specs.Sets.{has as has_page, set_of, pages_in};

// A set of pages of one block, in which page i counts 2^i.
#[derive(Clone, Copy, PartialEq, Eq, Debug)]
pub struct PageSet(pub u64);

impl PageSet {
    // The set without pages.
    pub const EMPTY: PageSet = PageSet(0);

    // Whether the set has a page. It has none from 64 on.
    pub fn has(self, page: usize) -> bool
        ensures { result ≡ has_page self.0 page }
    {
        page < 64 && (self.0 >> page) & 1 == 1
    }

    // The set with one page more. A page from 64 on is left out.
    pub fn with(self, page: usize) -> PageSet
        ensures { result.0 ≡ set_of 64 (λ j. (j == page) || has_page self.0 j) }
    {
        if page < 64 {
            PageSet(self.0 | (1 << page))
        } else {
            self
        }
    }

    // The pages of the set that another set has not.
    pub fn without(self, other: PageSet) -> PageSet
        ensures { result.0 ≡ set_of 64 (λ j. has_page self.0 j && not (has_page other.0 j)) }
    {
        PageSet(self.0 & !other.0)
    }

    // How many pages the set has.
    pub fn len(self) -> usize
        ensures { result ≡ pages_in 64 self.0 }
    {
        self.0.count_ones() as usize
    }

    // Whether the set has no page.
    pub fn is_empty(self) -> bool
        ensures { result ≡ (self.0 == 0) }
    {
        self.0 == 0
    }

    // Whether the set has only pages below a number.
    pub fn within(self, pages: usize) -> bool
        ensures { result ≡ nat_lt self.0 (2 ^ pages) }
    {
        pages >= 64 || self.0 >> pages == 0
    }
}
