//! Names that stand as whole statements, and are meant to be END.

ghost use Rattle.ob_evidence.specs.Lone.{AreLone};
ghost use Rattle.ob_evidence.specs.Sites.{scene_of};

use crate::nearest_names::leads_to_statement;
use crate::small_keywords::is_new;
use crate::text_site::Site;
use ob_explain_sentences::first_word::is_same_in_any_case;
use ob_explain_tokens::actuals::ends_call;
use ob_explain_words::distance::distance;
use ob_scan::{Kind, Token};

/// Words that other languages have for END.
const ENDS: [&str; 12] = [
    "ENDIF",
    "FI",
    "OD",
    "WEND",
    "ENDWHILE",
    "ENDFOR",
    "ENDDO",
    "ENDLOOP",
    "ENDPROC",
    "ENDPROCEDURE",
    "DONE",
    "ESAC",
];

/// The last name before the place, in what this token opens, that stands as a whole statement and is meant to be END.
pub fn lone_end(site: &Site<'_, '_>, opening: Option<Token>) -> Option<Token>
    ensures { AreLone (scene_of site.now) result }
{
    let Some(opening) = opening else {
        return None;
    };
    for token in site.before {
        if token.start <= opening.start {
            return None;
        }
        if let Some(name) = lone(site, *token) {
            return Some(name);
        }
    }
    None
}

/// This name, if it is meant to be END, stands before the place as a whole statement, and the text does not declare it.
fn lone(site: &Site<'_, '_>, name: Token) -> Option<Token>
    ensures { AreLone (scene_of site.now) result }
{
    if !is_end(site.word_of(Some(name))) || !is_alone(site.tokens, name) {
        return None;
    }
    if name.start < site.place && is_new(site, name) {
        Some(name)
    } else {
        None
    }
}

/// Whether a token is a whole statement: it stands right behind one that leads to a statement, and right before one that ends it.
fn is_alone(tokens: &[Token], name: Token) -> bool {
    let mut before = Kind::Ident;
    for token in tokens {
        if token.start > name.start {
            return leads_to_statement(before) && ends_call(token.kind);
        }
        if token.start < name.start {
            before = token.kind;
        }
    }
    false
}

/// Whether a word is END but for small letters, one letter or two that are swapped, or what other languages have for it.
fn is_end(word: &[u8]) -> bool {
    if distance(word, b"END") <= 1 {
        return true;
    }
    for end in &ENDS {
        if is_same_in_any_case(word, end.as_bytes()) {
            return true;
        }
    }
    false
}
