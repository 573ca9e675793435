//! The words of the grammar.

ghost use Rattle.std.specs.Prelude.{◌≡◌};
ghost use Rattle.dfg_tokens.specs.Words.{spelling, spelling_within_lists, first_word, word_of};
ghost use Rattle.dfg_tokens.specs.declared.word.TheConstants.{WORDS};

/// What an identifier means to the grammar, by its spelling. `Plain` is any other identifier.
#[derive(Clone, Copy, PartialEq, Eq, Debug)]
pub enum Word {
    /// `begin_problem`.
    BeginProblem,
    /// `end_problem`.
    EndProblem,
    /// `end_of_list`.
    EndOfList,
    /// `list_of_descriptions`.
    ListOfDescriptions,
    /// `list_of_symbols`.
    ListOfSymbols,
    /// `list_of_clauses`.
    ListOfClauses,
    /// `list_of_declarations`.
    ListOfDeclarations,
    /// `list_of_formulae`.
    ListOfFormulae,
    /// `list_of_proof`.
    ListOfProof,
    /// `list_of_settings`.
    ListOfSettings,
    /// `list_of_terms`.
    ListOfTerms,
    /// `list_of_special_formulae`.
    ListOfSpecialFormulae,
    /// `list_of_includes`.
    ListOfIncludes,
    /// `name`.
    Name,
    /// `author`.
    Author,
    /// `version`.
    Version,
    /// `logic`.
    Logic,
    /// `description`.
    Description,
    /// `date`.
    Date,
    /// `status`.
    Status,
    /// `satisfiable`.
    Satisfiable,
    /// `unsatisfiable`.
    Unsatisfiable,
    /// `unknown`.
    Unknown,
    /// `functions`.
    Functions,
    /// `predicates`.
    Predicates,
    /// `sorts`.
    Sorts,
    /// `operators`.
    Operators,
    /// `quantifiers`.
    Quantifiers,
    /// `translpairs`.
    Translpairs,
    /// `axioms`.
    Axioms,
    /// `conjectures`.
    Conjectures,
    /// `cnf`.
    Cnf,
    /// `dnf`.
    Dnf,
    /// `clause`.
    Clause,
    /// `forall`.
    Forall,
    /// `exists`.
    Exists,
    /// `not`.
    Not,
    /// `and`.
    And,
    /// `or`.
    Or,
    /// `implies`.
    Implies,
    /// `implied`.
    Implied,
    /// `equiv`.
    Equiv,
    /// `equal`.
    Equal,
    /// `true`.
    True,
    /// `false`.
    False,
    /// An identifier that is no word of the grammar.
    Plain,
}

/// The words of the grammar, by the length of their spelling.
const WORDS: [Word; 45] = [
    // up to 4 bytes
    Word::Name,
    Word::Date,
    Word::Cnf,
    Word::Dnf,
    Word::Not,
    Word::And,
    Word::Or,
    Word::True,
    // 5 bytes
    Word::Logic,
    Word::Sorts,
    Word::Equiv,
    Word::Equal,
    Word::False,
    // 6 bytes
    Word::Author,
    Word::Status,
    Word::Axioms,
    Word::Clause,
    Word::Forall,
    Word::Exists,
    // 7 to 10 bytes
    Word::Version,
    Word::Unknown,
    Word::Functions,
    Word::Predicates,
    Word::Operators,
    Word::Implies,
    Word::Implied,
    // 11 bytes
    Word::EndProblem,
    Word::EndOfList,
    Word::Description,
    Word::Satisfiable,
    Word::Quantifiers,
    Word::Translpairs,
    Word::Conjectures,
    // 12 bytes and more
    Word::BeginProblem,
    Word::ListOfDescriptions,
    Word::ListOfSymbols,
    Word::ListOfClauses,
    Word::ListOfDeclarations,
    Word::ListOfFormulae,
    Word::ListOfProof,
    Word::ListOfSettings,
    Word::ListOfTerms,
    Word::ListOfSpecialFormulae,
    Word::ListOfIncludes,
    Word::Unsatisfiable,
];

/// The words that are no names.
pub const RESERVED: [Word; 11] = [
    Word::Forall,
    Word::Exists,
    Word::Not,
    Word::And,
    Word::Or,
    Word::Implies,
    Word::Implied,
    Word::Equiv,
    Word::Equal,
    Word::True,
    Word::False,
];

/// How the word is spelled; `Plain` has no spelling of its own, and gives no bytes.
pub fn spelled(word: Word) -> &'static [u8]
    ensures { result.now ≡ spelling word }
{
    match word {
        Word::BeginProblem => b"begin_problem",
        Word::EndProblem => b"end_problem",
        Word::EndOfList => b"end_of_list",
        Word::ListOfDescriptions => b"list_of_descriptions",
        Word::ListOfSymbols => b"list_of_symbols",
        Word::ListOfClauses => b"list_of_clauses",
        Word::ListOfDeclarations => b"list_of_declarations",
        Word::ListOfFormulae => b"list_of_formulae",
        Word::ListOfProof => b"list_of_proof",
        Word::ListOfSettings => b"list_of_settings",
        Word::ListOfTerms => b"list_of_terms",
        Word::ListOfSpecialFormulae => b"list_of_special_formulae",
        Word::ListOfIncludes => b"list_of_includes",
        Word::Name => b"name",
        Word::Author => b"author",
        Word::Version => b"version",
        Word::Logic => b"logic",
        Word::Description => b"description",
        Word::Date => b"date",
        Word::Status => b"status",
        Word::Satisfiable => b"satisfiable",
        Word::Unsatisfiable => b"unsatisfiable",
        Word::Unknown => b"unknown",
        _ => spelled_within_lists(word),
    }
}

/// How a word of the lists of symbols and of clauses is spelled; any other word gives no bytes.
fn spelled_within_lists(word: Word) -> &'static [u8]
    ensures { result.now ≡ spelling_within_lists word }
{
    match word {
        Word::Functions => b"functions",
        Word::Predicates => b"predicates",
        Word::Sorts => b"sorts",
        Word::Operators => b"operators",
        Word::Quantifiers => b"quantifiers",
        Word::Translpairs => b"translpairs",
        Word::Axioms => b"axioms",
        Word::Conjectures => b"conjectures",
        Word::Cnf => b"cnf",
        Word::Dnf => b"dnf",
        Word::Clause => b"clause",
        Word::Forall => b"forall",
        Word::Exists => b"exists",
        Word::Not => b"not",
        Word::And => b"and",
        Word::Or => b"or",
        Word::Implies => b"implies",
        Word::Implied => b"implied",
        Word::Equiv => b"equiv",
        Word::Equal => b"equal",
        Word::True => b"true",
        Word::False => b"false",
        _ => b"",
    }
}

/// The first of the words that is spelled so.
fn find_word(words: &[Word], text: &[u8]) -> Word
    ensures { result ≡ first_word words.now text.now }
{
    for word in words {
        if spelled(*word) == text {
            return *word;
        }
    }
    Word::Plain
}

/// The words that are about as long as the text: among them are all that are spelled so.
fn words_as_long(text: &[u8]) -> &'static [Word]
    ensures { first_word result.now text.now ≡ first_word WORDS text.now }
{
    let words: &'static [Word] = &WORDS;
    let len = text.len();
    if len < 5 {
        &words[..8]
    } else if len < 6 {
        &words[8..13]
    } else if len < 7 {
        &words[13..19]
    } else if len < 11 {
        &words[19..26]
    } else if len < 12 {
        &words[26..33]
    } else {
        &words[33..]
    }
}

/// The word of this spelling; `Plain` where no word is spelled so.
#[tactic(auto, unfolding(crate::specs::Words::word_of))]
pub fn word_of(text: &[u8]) -> Word
    ensures { result ≡ word_of text.now }
{
    find_word(words_as_long(text), text)
}
