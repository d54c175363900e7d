ghost use Rattle.std.specs.Prelude.{◌≡◌, IfOk, IfErr};
ghost use Rattle.percent_encoding.specs.Percent.{percent_decode};
ghost use Rattle.lsp_forms.specs.Paths.{as_text, is_file, path_in, path_of};

use crate::forms::ParamFault;
use json_rpc::Refused;
use lists::Text;
use percent_encoding::percent_decode;
use std::alloc::Global;
use url::{ParseError, Url};

/// Whether a URL has the scheme `file` and an empty host.
fn is_file(url: &Url) -> bool
    ensures { result ≡ is_file url.now }
{
    url.scheme() == "file" && !url.has_host()
}

/// Bytes as a text, where they are UTF-8.
fn as_text(bytes: Vec<u8>) -> Option<Text>
    ensures { result ≡ as_text bytes.items }
{
    match String::from_utf8(bytes) {
        Ok(text) => Some(Text::from_string(text)),
        Err(_) => None,
    }
}

/// The bytes of a path without its percent-encoding.
fn decoded(alloc: Global, path: &str) -> Result<Vec<u8>, Refused<ParamFault>>
    ensures bytes { IfOk result (λ bytes. bytes.items ≡ percent_decode path.now) }
    ensures memory { IfErr result (λ e. e ≡ Refused.OutOfMemory) }
{
    let mut bytes = Vec::new(alloc);
    match percent_decode(path.as_bytes()).append_to(&mut bytes) {
        Ok(()) => Ok(bytes),
        Err(_) => Err(Refused::OutOfMemory),
    }
}

/// The decoded path of a URL that names a file.
#[tactic(auto, unfolding(crate::specs::Paths::path_in))]
fn path_in(alloc: Global, url: &Url) -> Result<Option<Text>, Refused<ParamFault>>
    ensures path { IfOk result (λ path. path ≡ path_in url.now) }
    ensures memory { IfErr result (λ e. e ≡ Refused.OutOfMemory) }
{
    if !is_file(url) {
        return Ok(None);
    }
    Ok(as_text(decoded(alloc, url.path())?))
}

/// The file that a URI names. A URL of more than 4 GB counts as want of memory.
#[tactic(auto, unfolding(crate::specs::Paths::path_from))]
pub fn path_of(alloc: Global, text: &str) -> Result<Option<Text>, Refused<ParamFault>>
    ensures path { IfOk result (λ path. path ≡ path_of text.now) }
    ensures memory { IfErr result (λ e. e ≡ Refused.OutOfMemory) }
{
    match Url::parse(alloc, text) {
        Ok(url) => path_in(alloc, &url),
        Err(ParseError::OutOfMemory | ParseError::Overflow) => Err(Refused::OutOfMemory),
        Err(_) => Ok(None),
    }
}
