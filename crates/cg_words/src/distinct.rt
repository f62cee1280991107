//! Whether names stand once.
ghost use Rattle.std.specs.Prelude.{◌≡◌, bytes_eq};
ghost use Rattle.std.specs.List.{list_any};
ghost use Rattle.cg_words.specs.Reading.{is_same_name, are_distinct};

use crate::named::NamedFile;

fn is_same_name(a: &str, b: &str) -> bool
    ensures { result ≡ is_same_name a.now b.now }
{
    a.eq_ignore_ascii_case(b)
}

fn is_curve_among(name: &str, others: &[NamedFile<'_>]) -> bool
    ensures { result ≡ list_any (λ other. is_same_name name.now other.name) others.now }
{
    others.iter().any(|other| is_same_name(name, other.name()))
}

/// Whether no two names are equal, ASCII case aside.
pub fn are_curve_names_distinct(named: &[NamedFile<'_>]) -> bool
    ensures { result ≡ are_distinct is_same_name named.now }
{
    let mut rest = named;
    while let [first, others @ ..] = rest {
        if is_curve_among(first.name(), others) {
            return false;
        }
        rest = others;
    }
    true
}

fn is_among(name: &str, others: &[NamedFile<'_>]) -> bool
    ensures { result ≡ list_any (λ other. bytes_eq name.now other.name) others.now }
{
    others.iter().any(|other| name == other.name())
}

/// Whether no two names are equal.
pub fn are_names_distinct(named: &[NamedFile<'_>]) -> bool
    ensures { result ≡ are_distinct bytes_eq named.now }
{
    let mut rest = named;
    while let [first, others @ ..] = rest {
        if is_among(first.name(), others) {
            return false;
        }
        rest = others;
    }
    true
}
