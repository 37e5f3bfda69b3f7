//! Refusals by their names.
ghost use Rattle.std.specs.Prelude.{◌≡◌};
ghost use Rattle.k_refusal.specs.Rules.{rule_name};

/// Why a source is refused: the rule of the accepted C that it breaks.
#[derive(Clone, Copy, Debug, PartialEq, Eq)]
pub enum Rule {
    BadByte,
    OpenComment,
    OpenLiteral,
    BadEscape,
    BadNumber,
    BadDirective,
    UnknownHeader,
    MacroOrder,
    MacroAgain,
    SourceLong,
    TokensMany,
    Syntax,
    TooDeep,
    NodesMany,
    Unknown,
    Twice,
    Kinds,
    NotPlace,
    ConstWrite,
    Arity,
    BadSize,
    BadFormat,
    NoMain,
    NotDefined,
    JumpOutside,
    CaseAgain,
}

/// The name of a refusal.
#[tactic(auto, unfolding(crate::specs::Rules::rule_name))]
pub(crate) fn rule_name(rule: Rule) -> &'static str
    ensures { result.now ≡ rule_name rule }
{
    match rule {
        Rule::BadByte => "BadByte",
        Rule::OpenComment => "OpenComment",
        Rule::OpenLiteral => "OpenLiteral",
        Rule::BadEscape => "BadEscape",
        Rule::BadNumber => "BadNumber",
        Rule::BadDirective => "BadDirective",
        Rule::UnknownHeader => "UnknownHeader",
        Rule::MacroOrder => "MacroOrder",
        Rule::MacroAgain => "MacroAgain",
        Rule::SourceLong => "SourceLong",
        Rule::TokensMany => "TokensMany",
        Rule::Syntax => "Syntax",
        Rule::TooDeep => "TooDeep",
        Rule::NodesMany => "NodesMany",
        Rule::Unknown => "Unknown",
        Rule::Twice => "Twice",
        Rule::Kinds => "Kinds",
        Rule::NotPlace => "NotPlace",
        Rule::ConstWrite => "ConstWrite",
        Rule::Arity => "Arity",
        Rule::BadSize => "BadSize",
        Rule::BadFormat => "BadFormat",
        Rule::NoMain => "NoMain",
        Rule::NotDefined => "NotDefined",
        Rule::JumpOutside => "JumpOutside",
        Rule::CaseAgain => "CaseAgain",
    }
}
