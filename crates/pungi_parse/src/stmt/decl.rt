ghost use Rattle.std.specs.Prelude.{suc, length, map};
ghost use Rattle.pungi_parse.specs.Readers.{readers};
ghost use Rattle.pungi_parse.specs.Reads.{ReadsFront};
ghost use Rattle.pungi_parse.specs.stmt.StmtReader.{first_value, init_at, var_at, vars_at, decl_at};
ghost use Rattle.pungi_tree.specs.Placed.{placed};
ghost use Rattle.pungi_tree.specs.StmtView.{init_view, init_option_view, var_decl_view, decl_view};

use crate::parser::Parser;
use crate::stmt::table::table;
use crate::stop::Stop;
use crate::tokens::one_token::eat;
use crate::tokens::words::qualifiers;
use pungi_base::{Memory, Punct, Token};
use pungi_tree::{Decl, Init, VarDecl};

/// What was read, and the tokens after it.
pub(crate) type Front<'t, T> = Result<(T, &'t [Token]), Stop>;

impl Parser<'_> {
    /// The first value of a variable after its `=`.
    #[tactic(auto, unfolding(crate::specs::stmt::StmtReader::first_value, crate::specs::Reading::chain, crate::specs::Reading::on_some))]
    fn first_value<'t>(&self, tokens: &'t [Token]) -> Front<'t, Init>
        ensures { ReadsFront init_view (length tokens.now) result
            (first_value self.now.types.now (readers self.now.types.now self.now.nest self.now.most)
            (placed tokens.now)) }
    {
        if let Some((_, inner)) = eat(Punct::LeftBrace, tokens) {
            let (found, rest) = table(self.alloc, inner)?;
            return Ok((Init::Table(found), rest));
        }
        let (e, _, rest) = self.expr(1, tokens)?;
        Ok((Init::Value(Box::into_inner(e)), rest))
    }

    /// The first value of a variable with its `=`, where it has one.
    #[tactic(auto, unfolding(crate::specs::stmt::StmtReader::init_at, crate::specs::Reading::chain, crate::specs::Reading::on_some))]
    fn init<'t>(&self, tokens: &'t [Token]) -> Front<'t, Option<Init>>
        ensures { ReadsFront init_option_view (suc (length tokens.now)) result
            (init_at self.now.types.now (readers self.now.types.now self.now.nest self.now.most) (placed tokens.now)) }
    {
        match eat(Punct::Assign, tokens) {
            None => Ok((None, tokens)),
            Some((_, after)) => {
                let (value, rest) = self.first_value(after)?;
                Ok((Some(value), rest))
            }
        }
    }

    /// A declared variable with its first value.
    #[tactic(auto, unfolding(crate::specs::stmt::StmtReader::var_at, crate::specs::Reading::chain))]
    fn var<'t>(&self, tokens: &'t [Token]) -> Front<'t, VarDecl>
        ensures { ReadsFront var_decl_view (length tokens.now) result
            (var_at self.now.types.now (readers self.now.types.now self.now.nest self.now.most) (placed tokens.now)) }
    {
        let (declr, _, after) = self.declr(tokens)?;
        let (value, rest) = self.init(after)?;
        Ok((VarDecl { declr, value }, rest))
    }

    /// The variables of a declaration, with its semicolon.
    pub(crate) fn vars<'t>(&self, tokens: &'t [Token]) -> Front<'t, Vec<VarDecl>>
        ensures { ReadsFront (λ t. map var_decl_view t.items) (length tokens.now) result
            (vars_at self.now.types.now (readers self.now.types.now self.now.nest self.now.most) (placed tokens.now)) }
    {
        let (first, mut rest) = self.var(tokens)?;
        let mut list = Vec::new(self.alloc);
        list.push(first).map_err(Memory::from)?;
        'each: while let Some((_, after)) = eat(Punct::Comma, rest) {
            let (more, behind) = self.var(after)?;
            list.push(more).map_err(Memory::from)?;
            rest = behind;
        }
        match eat(Punct::Semicolon, rest) {
            None => Err(Stop::NothingRead),
            Some((_, behind)) => Ok((list, behind)),
        }
    }

    /// A declaration of variables.
    #[tactic(auto, unfolding(crate::specs::stmt::StmtReader::decl_at, crate::specs::Reading::chain))]
    pub(crate) fn decl<'t>(&self, tokens: &'t [Token]) -> Front<'t, Decl>
        ensures { ReadsFront decl_view (length tokens.now) result
            (decl_at self.now.types.now (readers self.now.types.now self.now.nest self.now.most) (placed tokens.now)) }
    {
        let (quals, after) = qualifiers(self.alloc, tokens)?;
        let (type_name, _, behind) = self.spec(after)?;
        let (vars, rest) = self.vars(behind)?;
        Ok((
            Decl {
                quals,
                type_name,
                vars,
            },
            rest,
        ))
    }
}
