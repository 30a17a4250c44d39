ghost use Rattle.std.specs.Prelude.{◌≡◌, ◌+◌, ◌<◌, ◌++◌, ◌∷◌, [], length, false, Bool, List, ℕ};
ghost use Rattle.http_conn.specs.Next.{Gives};
ghost use Rattle.http_conn.specs.Stream.{Stream, Ending, Begins, IsRequest, is_closed, max_requests};
ghost use Rattle.http_conn.specs.declared.request.Next.{Next as NextOf};
ghost use Rattle.http_conn.specs.declared.request.Request.{Request as RequestOf};

/// The bytes give one answer and one rest, before `Continue` was given and after it: no two cases of
/// the definition stand together, and a request is fixed by its bytes.
pub fn bytes_give_one_answer()
    ensures { (continued : Bool) (all : List ℕ) (a b : NextOf) (rest rest2 : List ℕ)
        → Gives continued all a rest → Gives continued all b rest2 → (a ≡ b) × (rest ≡ rest2) }
{}

/// The bytes have one list of requests and one ending.
pub fn bytes_have_one_stream()
    ensures { (bytes : List ℕ) (requests others : List RequestOf) (ending another : Ending)
        → Stream bytes requests ending → Stream bytes others another → (requests ≡ others)
        × (ending ≡ another) }
{}

/// One more request stands behind those that were read, where the last of them doesn't close.
pub fn requests_go_on()
    ensures { (n : ℕ) (bytes : List ℕ) (requests : List RequestOf) (mid : List ℕ) (request : RequestOf) (rest : List ℕ)
        → Begins n bytes requests mid → n + length requests < max_requests
        → is_closed requests ≡ false → IsRequest mid request rest
        → Begins n bytes (requests ++ request ∷ []) rest }
{}

/// Requests that end before the tail stand in the bytes before the tail: what a source still has
/// left is no part of what was read.
pub fn requests_stand_in_what_was_read()
    ensures { (n : ℕ) (got : List ℕ) (requests : List RequestOf) (held tail : List ℕ)
        → Begins n (got ++ tail) requests (held ++ tail) → Begins n got requests held }
{}
