//! Facts about all names and patterns, for proofs of callers.
ghost use Rattle.std.specs.Prelude.{◌≡◌, ◌≢◌, ◌↔◌, ◌++◌, ◌∷◌, [], ℕ, List, codes, map, false, IsTrue, Ok};
ghost use Rattle.std.specs.Char.{to_ascii_lowercase};
ghost use Rattle.std.specs.List.{list_any};
ghost use Rattle.imap_names.specs.declared.token.Token.{Token};
ghost use Rattle.imap_names.specs.declared.token.Token.TheVariants.{Any, AnyInLevel};
ghost use Rattle.imap_names.specs.Letters.{letters_of, path_in};
ghost use Rattle.imap_names.specs.MatchTest.{is_match, ends_in_percent};
ghost use Rattle.imap_names.specs.Name.{root_of, path_of, shared_root};
ghost use Rattle.imap_names.specs.Namespace.{personal_prefix, other_users_prefix, shared_prefix};
ghost use Rattle.imap_names.specs.Pattern.{IsMatch, EndsInPercent, is_wildcard, token_of};
ghost use Rattle.imap_names.specs.Reading.{name_read};
ghost use Rattle.imap_names.specs.Showing.{shown};
ghost use Rattle.imap_names.specs.Text.{is_delimiter};
ghost use Rattle.imap_names.specs.Valid.{IsName};

/// The text that shows a name to a user is read as that name for him.
pub fn shown_is_read()
    ensures { (user : List ℕ) (name : List (List ℕ)) → IsName name
        → name_read user (shown user name) ≡ Ok name }
{}

/// The test of a match says whether the name matches.
pub fn match_is_tested()
    ensures { (pattern : List Token) (text : List ℕ)
        → IsTrue (is_match pattern text) ↔ IsMatch pattern text }
{}

/// The test of a pattern's end says whether its last token is `%`.
pub fn percent_is_tested()
    ensures { (pattern : List Token) → IsTrue (ends_in_percent pattern) ↔ EndsInPercent pattern }
{}

/// The pattern `*` matches every name, and `%` those of one level (RFC 9051, section 6.3.9).
pub fn wildcards_match()
    ensures any { (text : List ℕ) → IsMatch (Any ∷ []) text }
    ensures in_level { (text : List ℕ)
        → IsMatch (AnyInLevel ∷ []) text ↔ (list_any is_delimiter text ≡ false) }
{}

/// A pattern matches INBOX whatever the ASCII case of its letters (RFC 9051, section 5.1).
pub fn inbox_matches_without_case()
    ensures { (pattern : List ℕ) → is_match (map token_of pattern) (codes "INBOX")
        ≡ is_match (map token_of (map to_ascii_lowercase pattern)) (codes "INBOX") }
{}

/// A text without wildcards matches itself.
pub fn names_match_themselves()
    ensures { (text : List ℕ) → list_any is_wildcard text ≡ false → IsMatch (map token_of text) text }
{}

/// A pattern is compared with all octets of a text. The path of a name is found in the text that shows it.
pub fn letters_are_those_shown()
    ensures octets { (text : List ℕ) → map (λ letter. letter.octet) (letters_of text) ≡ text }
    ensures path { (user : List ℕ) (name : List (List ℕ)) → IsName name
        → path_in (shown user name) ≡ path_of name }
{}

/// The text that shows a name begins with the prefix of its namespace.
pub fn prefixes_are_shown()
    ensures shared { (user : List ℕ) (name : List (List ℕ)) → root_of name ≡ shared_root
        → shown user name ≡ shared_prefix ++ path_of name }
    ensures personal { (user : List ℕ) (name : List (List ℕ))
        → root_of name ≢ shared_root → root_of name ≡ user
        → shown user name ≡ personal_prefix ++ path_of name }
    ensures other_users { (user : List ℕ) (name : List (List ℕ))
        → root_of name ≢ shared_root → root_of name ≢ user
        → shown user name ≡ other_users_prefix ++ (root_of name ++ 47 ∷ path_of name) }
{}
