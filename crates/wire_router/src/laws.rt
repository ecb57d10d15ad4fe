//! Laws of the formats.
ghost use Rattle.std.specs.Prelude.{◌≡◌, ℕ, List};
ghost use Rattle.wire_address.specs.Fields.{IsBytes};
ghost use Rattle.wire_router.specs.Advert.{IsRouterAdvert, IsValue, spelling, options_in};
ghost use Rattle.wire_router.specs.Options.{AreOptions};
ghost use Rattle.wire_router.specs.RouterOption.{IsPrefix, option_of, prefix_inside};
ghost use Rattle.wire_router.specs.declared.advert.RouterAdvert.{RouterAdvert};
ghost use Rattle.wire_router.specs.declared.option.PrefixInformation.{PrefixInformation};
ghost use Rattle.wire_router.specs.declared.option.RouterOption.TheVariants as Says;

/// Law: bytes are one advertisement at most.
pub fn a_router_advertisement_is_one()
    ensures { (bytes : List ℕ) (v w : RouterAdvert) → IsRouterAdvert bytes v → IsRouterAdvert bytes w → v ≡ w }
{}

/// Law: an advertisement that was emitted is read back, with its options.
pub fn router_advertisements_read_back()
    ensures header { (v : RouterAdvert) (options : List ℕ) → IsValue v → AreOptions options → IsRouterAdvert (spelling v options) v }
    ensures options { (v : RouterAdvert) (options : List ℕ) → IsValue v → options_in (spelling v options) ≡ options }
{}
