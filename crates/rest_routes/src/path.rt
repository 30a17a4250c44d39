ghost use Rattle.std.specs.Prelude.{◌≡◌};
ghost use Rattle.std.specs.List.{list_all};
ghost use Rattle.rest_routes.specs.Path.{is_name_byte, is_topic_name};

fn is_name_byte(byte: u8) -> bool
    ensures { result ≡ is_name_byte byte }
{
    byte.is_ascii_alphanumeric() || byte == b'.' || byte == b'_' || byte == b'-'
}

fn are_name_bytes(name: &[u8]) -> bool
    ensures { result ≡ list_all is_name_byte name.now }
{
    name.iter().all(|b| is_name_byte(*b))
}

/// A topic that a command makes has a name of 1 to 249 ASCII letters, digits, dots, underscores and
/// dashes.
pub fn is_topic_name(name: &str) -> bool
    ensures { result ≡ is_topic_name name.now }
{
    if name.is_empty() || name.len() > 249 {
        return false;
    }
    are_name_bytes(name.as_bytes())
}
