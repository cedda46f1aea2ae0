// The laws of the program's own files.
ghost use Rattle.std.specs.Prelude.{Bool, List, ℕ, ◌≡◌};
ghost use Rattle.sync_model.specs.Bytes.{Uuid};
ghost use Rattle.sync_model.specs.Clients.{client_of};
ghost use Rattle.sync_model.specs.Servers.{server_of};
ghost use Rattle.life_marks.specs.ClientMarks as client_marks;
ghost use Rattle.life_marks.specs.ServerMarks as server_marks;
ghost use Rattle.life_marks.specs.declared.pieces.ClientPiece.{ClientPiece};
ghost use Rattle.life_marks.specs.declared.pieces.ServerPiece.{ServerPiece};
ghost use Rattle.lives_law.specs.Lives.{Among, Written};
ghost use Rattle.lives_law.specs.Pair.{Converge, Fit, IsActive, IsCurrent};
ghost use Rattle.lives_law.specs.Arriving.{PairAnswers};
ghost use Rattle.lives_law.specs.Stored.{Agree, SameBy, Stands, Stores};
ghost use Rattle.lives_files.specs.Agreeing.{ClientIs, MarksAgree, ServerIs, client_records, server_records};
ghost use Rattle.lives_files.specs.Files.{Numbering, client_file, server_file};
ghost use Rattle.lives_files.specs.Journals.{Journals, Runs};
ghost use Rattle.lives_files.specs.Telling.{ClientTells, ServerTells};

use sync_model::Exchange;

/// Lives, which are bytes, can be numbered, so that no two have one number.
pub fn lives_have_numbers()
    ensures { Numbering }
{}

/// The marks that a node reads from its file are what the laws keep of it: of a server the life of each entry and of each
/// ident's last, of a client that of each transaction and of the last entry that it took. It is a file that was never written
/// anew, whose notes tell the life in which each entry, or transaction, was written.
pub fn marks_are_what_is_kept()
    ensures server { (lives : Numbering) (f : List (Written ServerPiece)) → ServerTells lives.number server_marks.no_marks f → ServerIs lives.number f }
    ensures client { (lives : Numbering) (g : List (Written ClientPiece)) → ClientTells lives.number client_marks.no_marks g → ClientIs lives.number g }
{}

/// So two such files, of a world whose files keep lives, agree where the marks that are read from them do: what the program compares
/// is what the laws ask for.
pub fn marks_that_agree_suffice<E: Exchange>()
    ensures { (lives : Numbering) (is_old : Uuid → Bool) (b : Stores) (f : List (Written ServerPiece)) (g : List (Written ClientPiece)) → ServerTells lives.number server_marks.no_marks f → ClientTells lives.number client_marks.no_marks g
        → Among (server_file lives.number f) b.servers.kept → Among (client_file lives.number g) b.clients.kept → MarksAgree lives.number E.profile is_old f g → Agree E.profile is_old b (server_file lives.number f) (client_file lives.number g) }
{}

/// Whatever was restored, copied or moved: where nodes write records and notes as `Goes` says, test by the marks of their own files and
/// take what passes, their journals are files that keep lives (`stand`), and each tells its lives (`servers_tell`, `clients_tell`). Any two files of them whose marks agree, as they
/// are or once were, go together (`fit`) and have the headline (`converge`). All facts of ordinary exchanges hold of them and of all
/// that events make of them, also with messages of before on their way, where the client's ident isn't given up (`answers`). Two
/// clients of the same tables that agree with one server and are current have the same objects (`alike`).
pub fn journals_keep_lives<E: Exchange>()
    ensures stand { (lives : Numbering) (is_old : Uuid → Bool) (b : Journals) → Runs lives.number E.profile is_old b
        → (s : Stores) × Stands E.profile is_old s × SameBy (server_file lives.number) b.servers s.servers × SameBy (client_file lives.number) b.clients s.clients }
    ensures servers_tell { (lives : Numbering) (is_old : Uuid → Bool) (b : Journals) (f : List (Written ServerPiece)) → Runs lives.number E.profile is_old b → Among f b.servers.kept → ServerTells lives.number server_marks.no_marks f }
    ensures clients_tell { (lives : Numbering) (is_old : Uuid → Bool) (b : Journals) (g : List (Written ClientPiece)) → Runs lives.number E.profile is_old b → Among g b.clients.kept → ClientTells lives.number client_marks.no_marks g }
    ensures fit { (lives : Numbering) (is_old : Uuid → Bool) (b : Journals) (f : List (Written ServerPiece)) (g : List (Written ClientPiece)) → Runs lives.number E.profile is_old b → Among f b.servers.kept → Among g b.clients.kept
        → MarksAgree lives.number E.profile is_old f g → Fit E.profile (server_records lives.number f) (client_records lives.number g) }
    ensures converge { (lives : Numbering) (is_old : Uuid → Bool) (b : Journals) (f : List (Written ServerPiece)) (g : List (Written ClientPiece)) → Runs lives.number E.profile is_old b → Among f b.servers.kept → Among g b.clients.kept
        → MarksAgree lives.number E.profile is_old f g → Converge E.profile (server_of E.profile (server_records lives.number f)) (client_of E.profile (client_records lives.number g)) }
    ensures answers { (lives : Numbering) (is_old : Uuid → Bool) (b : Journals) (f : List (Written ServerPiece)) (g : List (Written ClientPiece)) → Runs lives.number E.profile is_old b → Among f b.servers.kept → Among g b.clients.kept
        → MarksAgree lives.number E.profile is_old f g → IsActive E.profile (server_records lives.number f) (client_records lives.number g)
        → (fit : Fit E.profile (server_records lives.number f) (client_records lives.number g)) × PairAnswers E.profile (server_records lives.number f) (client_records lives.number g) E.Fits fit }
    ensures alike { (lives : Numbering) (is_old : Uuid → Bool) (b : Journals) (f : List (Written ServerPiece)) (g h : List (Written ClientPiece)) → Runs lives.number E.profile is_old b → Among f b.servers.kept → Among g b.clients.kept → Among h b.clients.kept
        → MarksAgree lives.number E.profile is_old f g → MarksAgree lives.number E.profile is_old f h
        → IsCurrent E.profile (server_of E.profile (server_records lives.number f)) (client_of E.profile (client_records lives.number g)) → IsCurrent E.profile (server_of E.profile (server_records lives.number f)) (client_of E.profile (client_records lives.number h))
        → (client_of E.profile (client_records lives.number g)).subset ≡ (client_of E.profile (client_records lives.number h)).subset → (client_of E.profile (client_records lives.number g)).objects ≡ (client_of E.profile (client_records lives.number h)).objects }
{}
