//! The namespaces of mailbox names.
ghost use Rattle.std.specs.Prelude.{◌≡◌};
ghost use Rattle.imap_names.specs.Namespace.{personal_prefix, other_users_prefix, shared_prefix};
ghost use Rattle.imap_names.specs.Text.{is_delimiter};

/// What NAMESPACE says of the namespaces (RFC 2342, section 5): the prefix of the names of each, and the
/// delimiter of all.
#[derive(Clone, Copy)]
pub struct NamespacePrefixes {
    pub personal: &'static str,
    pub other_users: &'static str,
    pub shared: &'static str,
    pub delimiter: char,
}

/// The namespaces of every reader (RFC 9051, section 6.3.10).
pub fn namespaces() -> NamespacePrefixes
    ensures personal { result.personal.now ≡ personal_prefix }
    ensures other_users { result.other_users.now ≡ other_users_prefix }
    ensures shared { result.shared.now ≡ shared_prefix }
    ensures delimiter { result.delimiter ≡ 47 }
{
    NamespacePrefixes {
        personal: "",
        other_users: "Other Users/",
        shared: "Shared/",
        delimiter: '/',
    }
}
