ghost use Rattle.std.specs.Prelude.{◌≡◌, ◌≤◌, ◌<◌, ◌^◌, ◌-◌, false, not, List, length, IfOk, IfErr};
ghost use Rattle.std.specs.List.{prefix_len};
ghost use Rattle.pungi_base.specs.declared.token.Token.{Token as TheToken};
ghost use Rattle.pungi_base.specs.Words.{BeginWithWords};
ghost use Rattle.pungi_lex.specs.declared.macro_fault.MacroFault.{MacroFault as TheMacroFault};
ghost use Rattle.pungi_lex.specs.Expander.{IsExpanded, HasMacroFault, HasNoExpansion};
ghost use Rattle.pungi_lex.specs.Known.{AreKnown};
ghost use Rattle.pungi_lex.specs.MacroFault.{is_want_of_memory};
ghost use Rattle.pungi_lex.specs.Limits.{token_limit};

use crate::directive::{is_hash, obey, token_at};
use crate::frames::{TOKEN_LIMIT, expand_token};
use crate::macro_fault::MacroFault;
use crate::predefined::predefined;
use crate::stay::stay_count;
use pungi_base::{Names, Token};
use std::alloc::Global;

/// About how many tokens come for each that macros add. The list of tokens is made with room for as many.
const TOKENS_A_MACRO: usize = 8;

/// How many tokens come before the next line.
fn line_count(tokens: &[Token]) -> usize
    ensures count { result ≡ prefix_len (λ t. not t.first) tokens.now }
    ensures within { result ≤ length tokens.now }
{
    tokens.iter().take_while(|t| !t.first).count()
}

/// What the tokens become, or what they are refused for.
fn expand_tokens(alloc: Global, names: &Names, tokens: &[Token]) -> Result<Vec<Token>, MacroFault>
    requires few { length names.now < 2 ^ 32 }
    ensures expanded { IfOk result (λ out. IsExpanded (length names.now) tokens.now out.items) }
    ensures fault { IfErr result (λ fault. is_want_of_memory fault ≡ false
        → HasMacroFault (length names.now) tokens.now fault) }
{
    let mut table = predefined(alloc, names.len() as u32)?;
    let mut out = Vec::with_capacity(alloc, tokens.len() + tokens.len() / TOKENS_A_MACRO)?;
    let mut count = 0usize;
    let mut done = 0usize;
    'parts: loop {
        let (_, rest) = tokens.split_at(done);
        if rest.is_empty() {
            return Ok(out);
        }
        let length = stay_count(&table, rest, TOKEN_LIMIT - count);
        let token = token_at(rest, 0);
        if 0 < length {
            let (kept, _) = rest.split_at(length);
            out.extend_from_slice(kept)?;
            count += length;
            done += length;
        } else if is_hash(&token) {
            let (_, behind) = rest.split_at(1);
            let length = line_count(behind);
            let (words, _) = behind.split_at(length);
            match obey(alloc, &mut table, &token, words) {
                Ok(()) => done += 1 + length,
                Err(found) => return Err(found),
            }
        } else {
            match expand_token(alloc, &mut table, &mut out, count, &token) {
                Ok(now) => {
                    count = now;
                    done += 1;
                }
                Err(found) => return Err(found),
            }
        }
    }
}

/// Replaces the object macros among the tokens of a text, and leaves out its directives (C11 6.10.3). A token of an
/// expansion keeps the place of the word in the text that it comes from.
pub fn expand(alloc: Global, names: &Names, tokens: &[Token]) -> Result<Vec<Token>, MacroFault>
    requires words { BeginWithWords names.now }
    requires few { length names.now < 2 ^ 32 }
    ensures expanded { IfOk result (λ out. IsExpanded (length names.now) tokens.now out.items) }
    ensures only { (other : List TheToken) → IsExpanded (length names.now) tokens.now other
        → IfOk result (λ out. other ≡ out.items) }
    ensures within { IfOk result (λ out. length out.items ≤ token_limit) }
    ensures known { AreKnown names.now tokens.now → IfOk result (λ out. AreKnown names.now out.items) }
    ensures fault { IfErr result (λ fault. is_want_of_memory fault ≡ false
        → HasMacroFault (length names.now) tokens.now fault) }
    ensures first { (other : TheMacroFault) → HasMacroFault (length names.now) tokens.now other
        → IfErr result (λ fault. is_want_of_memory fault ≡ false → other ≡ fault) }
    ensures none { IfErr result (λ fault. is_want_of_memory fault ≡ false
        → HasNoExpansion (length names.now) tokens.now) }
{
    expand_tokens(alloc, names, tokens)
}
