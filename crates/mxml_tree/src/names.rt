// Written names: the prefix, what stands behind it, and what an attribute of a name declares.

ghost use Rattle.std.specs.Prelude.{◌≡◌, option_map};
ghost use Rattle.mxml_tree.specs.Namespaces.{declares, local_of, prefix_of};

// What stands before the `:`; empty without one.
pub fn prefix_of(name: &str) -> &str
    ensures { result.now ≡ prefix_of name.now }
{
    match name.split_once(':') {
        Some((prefix, _)) => prefix,
        None => "",
    }
}

// What stands behind the `:`, or the whole without one.
pub fn local_of(name: &str) -> &str
    ensures { result.now ≡ local_of name.now }
{
    match name.split_once(':') {
        Some((_, local)) => local,
        None => name,
    }
}

// The prefix that an attribute of this name declares.
pub fn declares(name: &str) -> Option<&str>
    ensures { option_map (λ prefix. prefix.now) result ≡ declares name.now }
{
    if name == "xmlns" {
        return Some("");
    }
    if prefix_of(name) == "xmlns" {
        return Some(local_of(name));
    }
    None
}
