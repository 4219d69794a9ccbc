//! Laws of what the contracts speak of. Each is a function with an empty body, whose `ensures` is the law.
ghost use Rattle.std.specs.Prelude.{◌≡◌, ◌↔◌, ℕ, List, Some};
ghost use Rattle.gw_wire.specs.AddressText.{address_text};
ghost use Rattle.gw_wire.specs.declared.values.Addr.{Addr};
ghost use Rattle.gw_routes.specs.Addresses.{IsAddress, address_of};

/// A text is read as an address exactly where it is the address's own text.
pub fn addresses_are_read()
    ensures { (text : List ℕ) (a : Addr) → (address_of text ≡ Some a) ↔ (IsAddress a × (text ≡ address_text a)) }
{}
