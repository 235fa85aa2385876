//! The laws of the grammar.

ghost use Rattle.std.specs.Prelude.{◌≡◌, ◌↔◌, ◌++◌, ◌≤◌, List, Some, ℕ, IsUtf8};
ghost use Rattle.ldv_value.specs.declared.value.Value.{Value};
ghost use Rattle.sql_model.specs.declared.expr.Expr.{Expr};
ghost use Rattle.sql_model.specs.declared.statement.Statement.{Statement};
ghost use Rattle.sql_model.specs.declared.token.Token.{Token};
ghost use Rattle.sql_model.specs.Expressions.{reads_expr};
ghost use Rattle.sql_model.specs.Grammar.{GoesNotOn, IsExpr};
ghost use Rattle.sql_model.specs.GrammarOfStatements.{Reads};
ghost use Rattle.sql_model.specs.GrammarOfTokens.{Spells};
ghost use Rattle.sql_model.specs.Texts.{statement_of};
ghost use Rattle.sql_model.specs.Tokens.{tokens_of};

/// Reading agrees with the grammar of expressions, in both directions.
///
/// If `reads_expr` reads an expression from the front of tokens, the tokens before the rest are this
/// expression by the grammar, of some level and of a depth of at most 64. Each expression by the grammar of
/// such a depth is read from the front of tokens, unless it goes on with the token after it. Tokens are an
/// expression by the grammar in at most one way, whatever its depth.
pub fn expression_law()
    ensures read { (ts : List Token) (e : Expr) (rest : List Token) → reads_expr ts ≡ Some (e, rest)
        → (front : List Token) × (ts ≡ front ++ rest)
        × (level : ℕ) × (depth : ℕ) × (depth ≤ 64) × IsExpr level depth front e }
    ensures back { (level : ℕ) (depth : ℕ) (front : List Token) (e : Expr) (rest : List Token)
        → IsExpr level depth front e → depth ≤ 64 → GoesNotOn rest
        → reads_expr (front ++ rest) ≡ Some (e, rest) }
    ensures one { (ts : List Token) (level : ℕ) (depth : ℕ) (e : Expr) (m : ℕ) (n : ℕ) (f : Expr)
        → IsExpr level depth ts e → IsExpr m n ts f → (e ≡ f) × (level ≡ m) × (depth ≡ n) }
{}

/// UTF-8 bytes are split into tokens exactly as the grammar spells tokens by bytes, and so in at most one
/// way.
pub fn token_law()
    ensures { (text : List ℕ) (ts : List Token) → IsUtf8 text
        → (tokens_of text ≡ Some ts) ↔ Spells text ts }
{}

/// Reading agrees with the grammar of texts: a text with its parameters is read as a statement exactly if the
/// grammar relates them, and so it has at most one reading.
pub fn reading_law()
    ensures same { (text : List ℕ) (params : List Value) (s : Statement) → IsUtf8 text
        → (statement_of text params ≡ Some s) ↔ Reads text params s }
    ensures unique { (text : List ℕ) (params : List Value) (a b : Statement) → IsUtf8 text
        → Reads text params a → Reads text params b → a ≡ b }
{}
