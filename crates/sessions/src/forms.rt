ghost use Rattle.std.specs.Prelude.{◌≡◌, codes, option_map};
ghost use Rattle.serde_json.specs.Find.{get};
ghost use Rattle.serde_json.specs.View.{view};
ghost use Rattle.lsp_forms.specs.Params.{member_of, text_of};
ghost use Rattle.lsp_forms.specs.Forms.{uri_in};

use serde_json::Value;

/// A text of `textDocument`.
#[tactic(auto, unfolding(lsp_forms::specs::Params::member_of, lsp_forms::specs::Params::text_of))]
fn document_text<'a>(params: &'a Value, key: &str) -> Option<&'a str>
    ensures { option_map (λ s. s.now) result ≡ text_of (member_of key.now (get (codes "textDocument") (view params.now))) }
{
    match params.get("textDocument") {
        Some(document) => match document.get(key) {
            Some(value) => value.as_str(),
            None => None,
        },
        None => None,
    }
}

/// The URI of a notification's document.
pub fn uri_in(params: &Value) -> Option<&str>
    ensures uri { option_map (λ s. s.now) result ≡ uri_in (view params.now) }
{
    document_text(params, "uri")
}

/// The text of a document that is opened.
pub fn text_in(params: &Value) -> Option<&str>
    ensures text { option_map (λ s. s.now) result ≡ text_of (member_of (codes "text") (get (codes "textDocument") (view params.now))) }
{
    document_text(params, "text")
}
