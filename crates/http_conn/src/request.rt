ghost use Rattle.std.specs.Prelude.{◌≡◌};
ghost use Rattle.http_conn.specs.Next.{is_last, is_continue};

use gate_io::{Items, Text};
use http::Method;
use rest_codes::Reply;
use std::alloc::AllocError;

/// A whole request (RFC 9112). `path` and `query` are the target, without the scheme and the
/// authority of an absolute one, before and behind its first `?`.
/// `accept` and `content_type` are the values of all fields of that name, joined by commas, and
/// none where there is no such field; they may hold bytes past ASCII. `encoded` says that a
/// Content-Encoding other than `identity` was named, and `close` that the connection closes behind
/// the response: the version is HTTP/1.0, or a Connection field has the member `close`. `expects` says
/// that the interim response was due before the body: the version is HTTP/1.1, an Expect field is
/// `100-continue`, and the body comes in chunks or has a length above 0.
#[derive(Drop)]
pub struct Request {
    pub method: Method,
    pub path: Text,
    pub query: Text,
    pub accept: Option<Items<u8>>,
    pub content_type: Option<Items<u8>>,
    pub encoded: bool,
    pub close: bool,
    pub expects: bool,
    pub body: Items<u8>,
}

/// What comes next on a connection. `Continue` asks for the interim response (RFC 9110, section
/// 15.2.1) to be sent now, and for `next` again: the client may wait for it before it sends the body.
/// The input ended between requests at `End`, and inside one at `CutShort`. `Bad` has the reply of
/// a place where no request can stand.
#[derive(Drop)]
pub enum Next {
    Ready(Request),
    Continue,
    End,
    CutShort,
    Bad(Reply),
}

/// Why a call of a connection failed: the source did, so many bytes of the response went out and
/// then the sink failed or took nothing, or there was no memory.
#[derive(Clone, Copy, Debug, PartialEq, Eq)]
pub enum ConnNo {
    ReadFault,
    WriteFault(usize),
    Want,
}

impl From<AllocError> for ConnNo {
    ghost use Rattle.http_conn.specs.declared.request.ConnNo.TheVariants.{Want};

    ghost from_gives = { λ _ e. e ≡ Want };

    fn from(_: AllocError) -> Self {
        ConnNo::Want
    }
}

impl Next {
    /// Nothing comes behind it on the connection.
    pub fn is_last(&self) -> bool
        ensures { result ≡ is_last self.now }
    {
        match self {
            Next::Ready(request) => request.close,
            Next::Continue => false,
            Next::End | Next::CutShort | Next::Bad(_) => true,
        }
    }

    /// It asks for the interim response.
    pub fn is_continue(&self) -> bool
        ensures { result ≡ is_continue self.now }
    {
        matches!(self, Next::Continue)
    }
}
