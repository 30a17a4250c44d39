ghost use Rattle.std.specs.Prelude.{◌≡◌};
ghost use Rattle.rest_codes.specs.Methods.{methods_of};

/// The methods of the path that a place of the table has, as an Allow field lists them. The table has
/// the places 1 to 21; a further number is answered as one that is only read.
#[tactic(auto, unfolding(crate::specs::Methods::methods_of))]
pub(crate) fn methods(place: u8) -> &'static str
    ensures { result.now ≡ methods_of place }
{
    match place {
        3 | 4 | 6 | 7 | 11 | 12 | 16 | 17 => "GET, POST",
        9 | 18 | 19 | 20 => "POST",
        10 => "DELETE",
        13 | 14 | 15 => "DELETE, GET, POST",
        _ => "GET",
    }
}
