// The tables of parameters and of the map: names listed and unlisted, looked up, bound and cleared.
ghost use Rattle.std.specs.Prelude.{◌≡◌, ◌<◌, length};
ghost use Rattle.record.specs.Number.{numbers_at};
ghost use Rattle.matching_tables.specs.Tables.{listed, Added, Tabled, Cleared};
ghost use Rattle.matching_tables.specs.Contract.{NamesAsk, AddAsks, TakeAsks, AllListed, none_of, LookIs, BindAsks, BindIs, MeetAsks, MeetIs};
ghost use Rattle.matching_tables.specs.Matched.{found};
ghost use Rattle.matching_tables.specs.Names.{Started, SameNames, SameParams, SameMap, entry_of};

use record::span::Span;

// Which names are listed, and which are bound to a sort of the store.
#[derive(Drop)]
pub struct Names<'a> {
    // By name, how often it is listed.
    pub params: &'a mut [u16],
    // By name, 0 where it is unbound, else one more than the number of its image.
    pub images: &'a mut [u16],
    // The bound names, in the order in which they were bound, and how many they are.
    pub bound: &'a mut [u16],
    pub many: usize,
}

impl Names<'_> {
    // Lists the names of a span once more.
    pub fn list(&mut self, bytes: &[u8], span: Span)
        requires { AddAsks self.old.params.now bytes.now span.at span.count }
        ensures listed { Added self.old.params.now (numbers_at bytes.now span.at span.count) self.new.params.now }
        ensures map { SameMap self.old self.new }
        ensures same { SameNames self.old self.new }
    {
        let params = &mut *self.params;
        for v in span.numbers(bytes) {
            params[v] += 1;
        }
    }

    // Lists them once less.
    pub fn unlist(&mut self, bytes: &[u8], span: Span)
        requires { TakeAsks self.old.params.now bytes.now span.at span.count }
        ensures unlisted { Added self.new.params.now (numbers_at bytes.now span.at span.count) self.old.params.now }
        ensures map { SameMap self.old self.new }
        ensures same { SameNames self.old self.new }
    {
        let params = &mut *self.params;
        for v in span.numbers(bytes) {
            params[v] -= 1;
        }
    }

    // Whether a name is listed.
    pub fn is_listed(&self, name: usize) -> bool
        requires { name < length self.now.params.now }
        ensures { result ≡ listed self.now.params.now name }
    {
        self.params[name] != 0
    }

    // Whether a name is bound.
    pub fn is_bound(&self, name: usize) -> bool
        requires { name < length self.now.images.now }
        ensures { result ≡ listed self.now.images.now name }
    {
        self.images[name] != 0
    }

    // Whether each name of a span is listed.
    pub fn all_listed(&self, bytes: &[u8], span: Span) -> bool
        requires { NamesAsk self.now.params.now bytes.now span.at span.count }
        ensures { AllListed self.now.params.now bytes.now span.at span.count result }
    {
        span.numbers(bytes).all(|v| self.params[v] != 0)
    }

    // Whether none of them is listed.
    pub fn none_listed(&self, bytes: &[u8], span: Span) -> bool
        requires { NamesAsk self.now.params.now bytes.now span.at span.count }
        ensures { result ≡ none_of self.now.params.now (numbers_at bytes.now span.at span.count) }
    {
        span.numbers(bytes).all(|v| self.params[v] == 0)
    }

    // The number of the image of a name; None where it is unbound.
    pub fn look_up(&self, name: usize) -> Option<usize>
        requires { name < length self.now.images.now }
        ensures { LookIs self.now.images.now name (entry_of result) }
    {
        usize::from(self.images[name]).checked_sub(1)
    }

    // Binds an unbound name to the sort `target`, behind the names bound before.
    pub fn bind(&mut self, name: usize, target: usize)
        requires { BindAsks self.old.images.now self.old.bound.now self.old.many name target }
        ensures bound { BindIs self.old.images.now self.old.bound.now self.old.many name target self.new.images.now self.new.bound.now self.new.many }
        ensures params { SameParams self.old self.new }
        ensures same { SameNames self.old self.new }
    {
        self.images[name] = (target + 1) as u16;
        self.bound[self.many] = name as u16;
        self.many += 1;
    }

    // Whether a listed variable of the pattern fits the sort `target`: an unbound one is bound to it, a bound one fits only if
    // that is its image.
    pub fn meet(&mut self, name: usize, target: usize) -> bool
        requires { MeetAsks self.old.images.now self.old.bound.now self.old.many name target }
        ensures answer { MeetIs self.old.images.now self.old.bound.now self.old.many name target self.new.images.now self.new.bound.now (found self.new.many result) }
        ensures params { SameParams self.old self.new }
        ensures same { SameNames self.old self.new }
    {
        match self.look_up(name) {
            None => {
                self.bind(name, target);
                true
            }
            Some(image) => image == target,
        }
    }

    // Counts no name as bound: over a map whose tables are zeros, whatever was counted before.
    pub fn start(&mut self)
        ensures { Started self.old self.new }
    {
        self.many = 0;
    }

    // Unbinds the bound names: both tables of the map are zeros again.
    pub fn clear(&mut self)
        requires { Tabled self.old.images.now self.old.bound.now self.old.many }
        ensures cleared { Cleared self.new.images.now self.new.bound.now }
        ensures none { self.new.many ≡ 0 }
        ensures params { SameParams self.old self.new }
        ensures same { SameNames self.old self.new }
    {
        let images = &mut *self.images;
        let bound = &mut *self.bound;
        for i in 0..self.many {
            images[bound[i] as usize] = 0;
            bound[i] = 0;
        }
        self.many = 0;
    }
}
