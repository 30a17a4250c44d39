ghost use Rattle.std.specs.Prelude.{◌≡◌, ◌++◌, List, ℕ};
ghost use Rattle.rest_routes.specs.Methods.{first_place, has_method, IsListed, verb_of};

/// A path of the gateway, whatever its parameters.
#[derive(Clone, Copy, Debug, PartialEq, Eq)]
pub enum Route {
    Brokers,
    Topics,
    Topic,
    Partitions,
    Partition,
    EndOffsets,
    Group,
    Instance,
    Offsets,
    Subscription,
    Assignments,
    Positions,
    Beginning,
    End,
    Records,
}

/// A method that some path has.
#[derive(Clone, Copy, Debug, PartialEq, Eq)]
pub enum Verb {
    Delete,
    Get,
    Post,
}

#[tactic(auto, unfolding(crate::specs::Methods::verb_of))]
pub(crate) fn verb_of(method: &str) -> Option<Verb>
    ensures { result ≡ verb_of method.now }
{
    match method {
        "DELETE" => Some(Verb::Delete),
        "GET" => Some(Verb::Get),
        "POST" => Some(Verb::Post),
        _ => None,
    }
}

impl Route {
    /// The path has this method.
    pub fn has_method(self, verb: Verb) -> bool
        ensures { result ≡ has_method self verb }
    {
        match verb {
            Verb::Delete => matches!(self, Route::Instance | Route::Subscription),
            Verb::Get => !matches!(
                self,
                Route::Group | Route::Instance | Route::Positions | Route::Beginning | Route::End
            ),
            Verb::Post => !matches!(
                self,
                Route::Brokers
                    | Route::Topics
                    | Route::Partitions
                    | Route::EndOffsets
                    | Route::Instance
                    | Route::Records
            ),
        }
    }

    /// The number of the path's first place in the table of the HTTP reference.
    pub fn first_place(self) -> u8
        ensures { result ≡ first_place self }
    {
        match self {
            Route::Brokers => 1,
            Route::Topics => 2,
            Route::Topic => 3,
            Route::Partitions => 5,
            Route::Partition => 6,
            Route::EndOffsets => 8,
            Route::Group => 9,
            Route::Instance => 10,
            Route::Offsets => 11,
            Route::Subscription => 13,
            Route::Assignments => 16,
            Route::Positions => 18,
            Route::Beginning => 19,
            Route::End => 20,
            Route::Records => 21,
        }
    }
}

/// The Allow field of a path, which the number of its first place gives, lists its methods and no others.
pub fn allow_lists_the_methods()
    ensures { (route : Route) → IsListed route }
{}
