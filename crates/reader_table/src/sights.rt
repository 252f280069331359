//! What looks of several steps see, step by step.

// Written by tools/rows.py.

ghost use Rattle.reader_table.specs.Composites.{composite_of};
ghost use Rattle.reader_table.specs.Looks.{sights_of};
ghost use Rattle.std.specs.Prelude.{◌≡◌};

use crate::composite::Composite;
use crate::op::Sight;
use crate::{entry_sights, form_sights};

/// The steps of a look of several.
pub fn sights(composite: Composite) -> &'static [Sight]
    ensures { sights_of result.now ≡ composite_of composite }
{
    match composite {
        Composite::Turbofish => &entry_sights::TURBOFISH,
        Composite::ArgumentsStand => &entry_sights::ARGUMENTS_STAND,
        Composite::ALiteral => &entry_sights::A_LITERAL,
        Composite::IdentThenEq => &entry_sights::IDENT_THEN_EQ,
        Composite::FnPtrStands => &entry_sights::FN_PTR_STANDS,
        Composite::NamedArgument => &entry_sights::NAMED_ARGUMENT,
        Composite::BoundStands => &entry_sights::BOUND_STANDS,
        Composite::Vert => &entry_sights::VERT,
        Composite::IdentPatternStands => &entry_sights::IDENT_PATTERN_STANDS,
        Composite::RangeToPatternStands => &entry_sights::RANGE_TO_PATTERN_STANDS,
        Composite::Dots => &entry_sights::DOTS,
        Composite::LiteralPatternStands => &entry_sights::LITERAL_PATTERN_STANDS,
        Composite::RangeEndStands => &entry_sights::RANGE_END_STANDS,
        Composite::RangeBoundStands => &entry_sights::RANGE_BOUND_STANDS,
        Composite::MemberColon => &entry_sights::MEMBER_COLON,
        Composite::InnerAttribute => &entry_sights::INNER_ATTRIBUTE,
        Composite::AnyDelimiter => &entry_sights::ANY_DELIMITER,
        Composite::ImplGenericsStand => &entry_sights::IMPL_GENERICS_STAND,
        Composite::LifetimeBehindAttributes => &entry_sights::LIFETIME_BEHIND_ATTRIBUTES,
        Composite::ConstBehindAttributes => &entry_sights::CONST_BEHIND_ATTRIBUTES,
        Composite::WhereEnds => &entry_sights::WHERE_ENDS,
        Composite::PostfixStands => &entry_sights::POSTFIX_STANDS,
        Composite::IdentAlone => &entry_sights::IDENT_ALONE,
        Composite::AnyRestriction => &entry_sights::ANY_RESTRICTION,
        Composite::RestrictedIn => &entry_sights::RESTRICTED_IN,
        Composite::NotBeforeBrace => &entry_sights::NOT_BEFORE_BRACE,
        Composite::ReceiverStands => &entry_sights::RECEIVER_STANDS,
        Composite::IdentThenLt => &entry_sights::IDENT_THEN_LT,
        Composite::UnsafeOrSafe => &entry_sights::UNSAFE_OR_SAFE,
        Composite::IdentOrTry => &entry_sights::IDENT_OR_TRY,
        Composite::SignatureStands => &entry_sights::SIGNATURE_STANDS,
        Composite::ExternCrate => &entry_sights::EXTERN_CRATE,
        Composite::ConstTrait => &entry_sights::CONST_TRAIT,
        Composite::ConstImpl => &entry_sights::CONST_IMPL,
        Composite::UnsafeExtern => &entry_sights::UNSAFE_EXTERN,
        Composite::UnsafeMod => &entry_sights::UNSAFE_MOD,
        Composite::UnsafeImpl => &entry_sights::UNSAFE_IMPL,
        Composite::UnionIdent => &entry_sights::UNION_IDENT,
        Composite::RestrictedTraitStands => &entry_sights::RESTRICTED_TRAIT_STANDS,
        Composite::TraitStands => &entry_sights::TRAIT_STANDS,
        Composite::ImplStands => &entry_sights::IMPL_STANDS,
        Composite::MacroStands => &entry_sights::MACRO_STANDS,
        Composite::ForeignSignatureStands => &entry_sights::FOREIGN_SIGNATURE_STANDS,
        Composite::ForeignStaticStands => &entry_sights::FOREIGN_STATIC_STANDS,
        Composite::DefaultStands => &entry_sights::DEFAULT_STANDS,
        Composite::NameOrPathSep => &entry_sights::NAME_OR_PATH_SEP,
        Composite::MacroItemBehindAttributes => &entry_sights::MACRO_ITEM_BEHIND_ATTRIBUTES,
        Composite::MacroStatementBehindAttributes =>
            &entry_sights::MACRO_STATEMENT_BEHIND_ATTRIBUTES,
        Composite::LetBehindAttributes => &entry_sights::LET_BEHIND_ATTRIBUTES,
        Composite::ItemBehindAttributes => &entry_sights::ITEM_BEHIND_ATTRIBUTES,
        Composite::LabelledBlock => &form_sights::LABELLED_BLOCK,
        Composite::LabelledLoop => &form_sights::LABELLED_LOOP,
        Composite::LabelledWhile => &form_sights::LABELLED_WHILE,
        Composite::LabelledFor => &form_sights::LABELLED_FOR,
        Composite::TypedClosureStands => &form_sights::TYPED_CLOSURE_STANDS,
        Composite::ClosureStands => &form_sights::CLOSURE_STANDS,
        Composite::RepeatStands => &form_sights::REPEAT_STANDS,
        Composite::RawAddrStands => &form_sights::RAW_ADDR_STANDS,
        Composite::UnaryStands => &form_sights::UNARY_STANDS,
        Composite::MacroCallStands => &form_sights::MACRO_CALL_STANDS,
        Composite::PathStands => &form_sights::PATH_STANDS,
        Composite::AssignOpStands => &form_sights::ASSIGN_OP_STANDS,
        Composite::EqualityStands => &form_sights::EQUALITY_STANDS,
        Composite::AssignStands => &form_sights::ASSIGN_STANDS,
        Composite::ShiftStands => &form_sights::SHIFT_STANDS,
        Composite::LtOrGt => &form_sights::LT_OR_GT,
        Composite::PlusOrMinus => &form_sights::PLUS_OR_MINUS,
        Composite::ProductStands => &form_sights::PRODUCT_STANDS,
        Composite::AwaitStands => &form_sights::AWAIT_STANDS,
        Composite::MethodStands => &form_sights::METHOD_STANDS,
        Composite::DotStands => &form_sights::DOT_STANDS,
        Composite::OperandStands => &form_sights::OPERAND_STANDS,
        Composite::BreakOperandStands => &form_sights::BREAK_OPERAND_STANDS,
        Composite::RangeIsOpen => &form_sights::RANGE_IS_OPEN,
        Composite::RangeIsOpenInCondition => &form_sights::RANGE_IS_OPEN_IN_CONDITION,
    }
}
