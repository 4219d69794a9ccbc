// The words of the command line.

ghost use Rattle.std.specs.Prelude.{◌≡◌, ◌↔◌, IsSome, IfSome, IsTrue};
ghost use Rattle.std.specs.List.{list_all};
ghost use Rattle.gw_head.specs.Target.{is_origin};
ghost use Rattle.gw_top.specs.Command.{IsServe, IsCheck, IsRoute, IsAskedMethod, Asks, is_path_byte, is_asked_path, name_of};

use gw_head::{has_bad_escape, split_target};
use http_header::is_token;

/// What is printed where the words are no command's form.
pub const USAGE: &[u8] =
    b"usage: gateway serve ROUTES | check ROUTES | route ROUTES METHOD HOST PATH | drill SEED N\n";

/// What `route` asks for: which route of a file answers a method, a host and a path.
#[derive(Drop)]
pub struct Query<'w> {
    /// The route file's name.
    pub name: &'w str,
    /// A token other than CONNECT.
    pub method: &'w [u8],
    /// May be empty.
    pub host: &'w [u8],
    /// A target in origin form.
    pub path: &'w [u8],
}

/// The name of the route file, where the words are `serve ROUTES`.
pub fn serve_name(words: &[String]) -> Option<&str>
    ensures form { IsSome result ↔ IsServe words.now }
    ensures name { IfSome result (λ name. name.now ≡ name_of words.now) }
{
    match words {
        [verb, name] if verb.as_str() == "serve" => Some(name.as_str()),
        _ => None,
    }
}

/// The name of the route file, where the words are `check ROUTES`.
pub fn check_name(words: &[String]) -> Option<&str>
    ensures form { IsSome result ↔ IsCheck words.now }
    ensures name { IfSome result (λ name. name.now ≡ name_of words.now) }
{
    match words {
        [verb, name] if verb.as_str() == "check" => Some(name.as_str()),
        _ => None,
    }
}

/// What is asked for, where the words are `route ROUTES METHOD HOST PATH`.
pub fn route_query(words: &[String]) -> Option<Query<'_>>
    ensures form { IsSome result ↔ IsRoute words.now }
    ensures asks { IfSome result (λ query. Asks words.now query) }
{
    match words {
        [verb, name, method, host, path]
            if verb.as_str() == "route"
                && is_asked_method(method.as_str().as_bytes())
                && is_asked_path(path.as_str().as_bytes()) => {
            Some(Query {
                name: name.as_str(),
                method: method.as_str().as_bytes(),
                host: host.as_str().as_bytes(),
                path: path.as_str().as_bytes(),
            })
        }
        _ => None,
    }
}

fn is_asked_method(method: &[u8]) -> bool
    ensures { IsTrue result ↔ IsAskedMethod method.now }
{
    is_token(method) && method != b"CONNECT".as_slice()
}

#[tactic(auto, unfolding(crate::specs::Command::is_asked_path))]
fn is_asked_path(path: &[u8]) -> bool
    ensures { result ≡ is_asked_path path.now }
{
    begins_with_slash(path) && has_path_bytes(path) && !has_bad_escape(split_target(path).0)
}

fn begins_with_slash(path: &[u8]) -> bool
    ensures { result ≡ is_origin path.now }
{
    !path.is_empty() && path[0] == b'/'
}

fn has_path_bytes(path: &[u8]) -> bool
    ensures { result ≡ list_all is_path_byte path.now }
{
    path.iter().all(|b| is_path_byte(*b))
}

fn is_path_byte(b: u8) -> bool
    ensures { result ≡ is_path_byte b }
{
    (33..=126).contains(&b) && b != b'#'
}
