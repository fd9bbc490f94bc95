// The sizes by the list, and where each list lies.
ghost use Rattle.std.specs.Prelude.{◌≡◌, ◌*◌, ◌^◌, ◌≤◌, ◌<◌, IfSome};
ghost use Rattle.arclists.specs.Holding.{total, size_of, start_of, with_size, which_at};

use crate::{ListName, ListSizes};

impl ListSizes {
    // How many addresses the list has.
    pub fn size(self, list: ListName) -> usize
        ensures { result ≡ size_of list self }
    {
        match list {
            ListName::T1 => self.t1,
            ListName::T2 => self.t2,
            ListName::B1 => self.b1,
            ListName::B2 => self.b2,
            ListName::B3 => self.b3,
        }
    }

    // The place of its first address.
    pub fn start(self, list: ListName) -> usize
        requires { total self * 4 < 2 ^ 64 }
        ensures { result ≡ start_of list self }
    {
        match list {
            ListName::T1 => 0,
            ListName::T2 => self.t1,
            ListName::B1 => self.t1 + self.t2,
            ListName::B2 => self.t1 + self.t2 + self.b1,
            ListName::B3 => self.t1 + self.t2 + self.b1 + self.b2,
        }
    }

    // The sizes where the list has `n` addresses.
    pub fn with(self, list: ListName, n: usize) -> ListSizes
        ensures { result ≡ with_size list n self }
    {
        let mut r = self;
        match list {
            ListName::T1 => r.t1 = n,
            ListName::T2 => r.t2 = n,
            ListName::B1 => r.b1 = n,
            ListName::B2 => r.b2 = n,
            ListName::B3 => r.b3 = n,
        }
        r
    }

    // How many addresses there are.
    pub fn total(self) -> usize
        requires { total self * 4 < 2 ^ 64 }
        ensures { result ≡ total self }
    {
        self.t1 + self.t2 + self.b1 + self.b2 + self.b3
    }

    // The list that the address at place `i` is in; none from the total on.
    pub fn which(self, i: usize) -> Option<ListName>
        requires { total self * 4 < 2 ^ 64 }
        ensures value { result ≡ which_at self i }
        ensures some { IfSome result (λ x. 1 ≤ size_of x self) }
    {
        if i < self.t1 {
            Some(ListName::T1)
        } else if i < self.start(ListName::B1) {
            Some(ListName::T2)
        } else if i < self.start(ListName::B2) {
            Some(ListName::B1)
        } else if i < self.start(ListName::B3) {
            Some(ListName::B2)
        } else if i < self.total() {
            Some(ListName::B3)
        } else {
            None
        }
    }
}
