// SPDX-License-Identifier: Apache-2.0 OR MIT
//! Theorems over the definitions: which words are taken, and the job that each names, with no run.
ghost use Rattle.std.specs.Prelude.{◌≡◌, [], ◌∷◌, ◌++◌, Some, None, codes, true, false, List};
ghost use Rattle.clap.specs.Words.{Text, fault_of};
ghost use Rattle.clap.specs.declared.error.kind.ErrorKind.TheVariants.{ValueValidation};
ghost use Rattle.cr_words.specs.Job.{AreTakenFor, IsNamed, job_of, pipe_job, serve_job, view_job, drill_job};
ghost use Rattle.cr_words.specs.Numbers.{parse_number, are_workers, are_connections, is_seed, are_steps};
ghost use Rattle.cr_words.specs.Words.{confd_words, is_plain_text, serve_word, serve_words};
ghost use Rattle.cr_words.specs.Words.{store_word, user_word, store_words, user_words};
ghost use Rattle.cr_words.specs.Words.{drill_word, drill_words};

/// Proves that `pipe` and nothing else, after the program's name, is taken, whatever that name is.
pub fn law_pipe()
    ensures { (name : Text) → AreTakenFor (name ∷ codes "pipe" ∷ []) (pipe_job None) }
{}

/// Proves that `pipe --store FILE` is taken, if FILE doesn't begin with a hyphen.
pub fn law_pipe_store()
    ensures { (name file : Text) → is_plain_text file ≡ true
        → AreTakenFor (name ∷ codes "pipe" ∷ store_words file) (pipe_job (Some file)) }
{}

/// Proves that `view --store FILE --user NAME` is taken, in either order, if neither value begins with a hyphen.
pub fn law_view()
    ensures store_first { (name file user : Text) → is_plain_text file ≡ true → is_plain_text user ≡ true
        → AreTakenFor (name ∷ codes "view" ∷ store_words file ++ user_words user) (view_job file user) }
    ensures user_first { (name file user : Text) → is_plain_text file ≡ true → is_plain_text user ≡ true
        → AreTakenFor (name ∷ codes "view" ∷ user_words user ++ store_words file) (view_job file user) }
{}

/// Proves that `pipe --store=FILE` and `view --store=FILE --user=NAME` are taken, whatever the values are.
pub fn law_attached()
    ensures pipe { (name file : Text)
        → AreTakenFor (name ∷ codes "pipe" ∷ store_word file ∷ []) (pipe_job (Some file)) }
    ensures view { (name file user : Text)
        → AreTakenFor (name ∷ codes "view" ∷ store_word file ∷ user_word user ∷ []) (view_job file user) }
{}

/// Proves that `serve` is taken with its four options as two words each, if no value begins with a hyphen and the
/// numbers are within their ranges. If one isn't, the words are refused.
pub fn law_serve()
    ensures taken { (name listen workers connections file : Text) → is_plain_text listen ≡ true
        → is_plain_text file ≡ true
        → are_workers workers ≡ true → are_connections connections ≡ true
        → AreTakenFor (name ∷ codes "serve" ∷ serve_words listen workers connections file)
        (serve_job listen (parse_number workers) (parse_number connections) file) }
    ensures bad_workers { (name listen workers connections file : Text) → is_plain_text listen ≡ true
        → is_plain_text file ≡ true
        → is_plain_text workers ≡ true → is_plain_text connections ≡ true → are_workers workers ≡ false
        → fault_of confd_words (name ∷ codes "serve" ∷ serve_words listen workers connections file)
        ≡ ValueValidation ∷ [] }
    ensures bad_connections { (name listen workers connections file : Text) → is_plain_text listen ≡ true
        → is_plain_text file ≡ true
        → is_plain_text connections ≡ true → are_workers workers ≡ true → are_connections connections ≡ false
        → fault_of confd_words (name ∷ codes "serve" ∷ serve_words listen workers connections file)
        ≡ ValueValidation ∷ [] }
{}

/// Proves that `serve` is taken with one word for each of its options, written with `=`, whatever address and store
/// are.
pub fn law_serve_attached()
    ensures taken { (name listen workers connections file : Text) → are_workers workers ≡ true
        → are_connections connections ≡ true
        → AreTakenFor (name ∷ codes "serve" ∷ serve_word listen workers connections file)
        (serve_job listen (parse_number workers) (parse_number connections) file) }
    ensures bad_workers { (name listen workers connections file : Text) → are_workers workers ≡ false
        → fault_of confd_words (name ∷ codes "serve" ∷ serve_word listen workers connections file)
        ≡ ValueValidation ∷ [] }
    ensures bad_connections { (name listen workers connections file : Text) → are_workers workers ≡ true
        → are_connections connections ≡ false
        → fault_of confd_words (name ∷ codes "serve" ∷ serve_word listen workers connections file)
        ≡ ValueValidation ∷ [] }
{}

/// Proves that `drill` is taken with its two options as two words each, if they are numbers within their ranges; none
/// of these begins with a hyphen. If one isn't, the words are refused.
pub fn law_drill()
    ensures taken { (name seed steps : Text) → is_seed seed ≡ true → are_steps steps ≡ true
        → AreTakenFor (name ∷ codes "drill" ∷ drill_words seed steps)
        (drill_job (parse_number seed) (parse_number steps)) }
    ensures bad_seed { (name seed steps : Text) → is_plain_text seed ≡ true
        → is_plain_text steps ≡ true → is_seed seed ≡ false
        → fault_of confd_words (name ∷ codes "drill" ∷ drill_words seed steps) ≡ ValueValidation ∷ [] }
    ensures bad_steps { (name seed steps : Text) → is_plain_text steps ≡ true → is_seed seed ≡ true
        → are_steps steps ≡ false
        → fault_of confd_words (name ∷ codes "drill" ∷ drill_words seed steps) ≡ ValueValidation ∷ [] }
{}

/// Proves that `drill` is taken with one word for each of its options, written with `=`.
pub fn law_drill_attached()
    ensures taken { (name seed steps : Text) → is_seed seed ≡ true → are_steps steps ≡ true
        → AreTakenFor (name ∷ codes "drill" ∷ drill_word seed steps)
        (drill_job (parse_number seed) (parse_number steps)) }
    ensures bad_seed { (name seed steps : Text) → is_seed seed ≡ false
        → fault_of confd_words (name ∷ codes "drill" ∷ drill_word seed steps) ≡ ValueValidation ∷ [] }
    ensures bad_steps { (name seed steps : Text) → is_seed seed ≡ true → are_steps steps ≡ false
        → fault_of confd_words (name ∷ codes "drill" ∷ drill_word seed steps) ≡ ValueValidation ∷ [] }
{}

/// Words that `clap` takes name a job, whose numbers lie within their ranges.
pub fn law_taken_words()
    ensures { (words : List Text) → fault_of confd_words words ≡ [] → IsNamed (job_of words) }
{}
