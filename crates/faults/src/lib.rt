// By what a caller knows a fault of any layer: a number, the layer that refused, and a place.
#![tactic(auto)]

ghost use Rattle.std.specs.Prelude.{◌≡◌, Some};
ghost use Rattle.std.specs.Fmt.{DisplaysOnOk};
ghost use Rattle.faults.specs.Listings.{layer_of, layer_name, listing, listing_text, fault_text};

use std::fmt;

// The part of the core that refused.
#[derive(Clone, Copy, PartialEq, Eq, Debug)]
pub enum Layer {
    Register,
    Source,
    Account,
}

impl Layer {
    // The layer that a fault's number belongs to. No `From`, since a layer is not the number in another form.
    pub fn of(number: u8) -> Layer
        ensures { result ≡ layer_of number }
    {
        match number {
            1..=5 => Layer::Register,
            6..=11 => Layer::Source,
            _ => Layer::Account,
        }
    }
}

impl fmt::Display for Layer {
    ghost output = { λ layer. Some (layer_name layer) };

    fn fmt<W: fmt::Write>(&self, f: &mut fmt::Formatter<W>) -> fmt::Result {
        match self {
            Layer::Register => write!(f, "register"),
            Layer::Source => write!(f, "source"),
            Layer::Account => write!(f, "account"),
        }
    }
}

// A fault as it is listed for a caller. The place is 0 where a fault names none. Number and place are plain numbers, and
// no enum and no `Option`: records and other programs know a fault by these two.
#[derive(Clone, Copy, PartialEq, Eq, Debug)]
pub struct Listing {
    pub number: u8,
    pub layer: Layer,
    pub place: usize,
}

impl Listing {
    // The listing of the fault with this number, at this place.
    pub fn new(number: u8, place: usize) -> Listing
        ensures { result ≡ listing number place }
    {
        Listing {
            number,
            layer: Layer::of(number),
            place,
        }
    }
}

impl fmt::Display for Listing {
    ghost output = { λ l. Some (listing_text l) };

    fn fmt<W: fmt::Write>(&self, f: &mut fmt::Formatter<W>) -> fmt::Result {
        let number = self.number;
        let layer = self.layer;
        let place = self.place;
        write!(f, "fault {number}, layer {layer}, place {place}")
    }
}

// A fault of any layer: why something was refused.
pub trait Fault: Copy {
    ghost use Rattle.std.specs.Prelude.{ℕ, List};
    ghost use Rattle.faults.specs.declared.Listing.{Listing};

    ghost listed: { Self → Listing };

    ghost reason: { Self → List ℕ };

    // Number, layer and place of the fault. A `From` would not be plainer: the promise is the ghost member above, which
    // every fault gives beside its words.
    fn listing(self) -> Listing
        ensures { result ≡ listed self };

    // What is wrong, in words.
    fn reason(self) -> &'static str
        ensures { result.now ≡ reason self };

    // What every fault prints: what is wrong, and then number, layer and place.
    final fn describe<W: fmt::Write>(self, f: &mut fmt::Formatter<W>) -> fmt::Result
        ensures { DisplaysOnOk W.write_str_gives f.old result (Some (fault_text (reason self) (listed self))) f.new }
    {
        let reason = self.reason();
        let listing = self.listing();
        write!(f, "{reason} ({listing})")
    }
}
