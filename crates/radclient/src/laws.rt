//! Laws of the client, in the words of whoever uses it. They are facts about the definitions, and the functions do nothing.

ghost use Rattle.std.specs.Prelude.{◌≡◌, ◌≤◌, ◌↔◌, Err, IsTrue, List, Ok, Option, Some, length, map, ℕ};
ghost use Rattle.std.specs.List.{AllByRecursion};
ghost use Rattle.rad_outside.specs.Files.{FilesTold};
ghost use Rattle.rad_wire.specs.Accepts.{Accepts};
ghost use Rattle.radclient.specs.Answers.{Ending, Sending, ToCome, ended};
ghost use Rattle.radclient.specs.Client.{tried};
ghost use Rattle.radclient.specs.Exchanges.{AllGood, Exchange, IsWholeRun, OneBad};
ghost use Rattle.rad_text.specs.Lines.{lines_of};
ghost use Rattle.rad_value.specs.PairLists.{PairLists};
ghost use Rattle.radclient.specs.Groups.{groups_of};
ghost use Rattle.radclient.specs.Judging.{is_accepted};
ghost use Rattle.radclient.specs.Parted.{IsFirstWrong, IsRight, pairs_of_lines, parted};
ghost use Rattle.radclient.specs.Program.{Ends, number_of, pairs_of_groups};
ghost use Rattle.radclient.specs.Seen.{Seen};
ghost use Rattle.radclient.specs.Words.{IsInRange, Line, line_of};
ghost use Rattle.radclient.specs.declared.asked.Asked.{Asked};
ghost use Rattle.radclient.specs.declared.fault.LineFault.{LineFault};
ghost use Rattle.radclient.specs.declared.status.Status.{Status};

/// The client takes a datagram for its reply exactly where the reply is accepted: it is well formed, answers the request's
/// code and Identifier, and is signed with the secret (RFC 2865 section 3, RFC 2866 section 3, RFC 3579 section 3.2).
pub fn replies_are_taken_as_they_are_accepted()
    ensures { (request reply secret : List ℕ) → IsTrue (is_accepted request reply secret) ↔ Accepts request reply secret }
{}

/// However often a packet is sent, and whatever the wire answers, each send has the same octets and goes to the server.
pub fn resends_have_the_same_octets()
    ensures { (asked : Asked) (request lines : List ℕ) (tries : ℕ) (ending : Ending) (come : ToCome)
        → AllByRecursion (λ (sending : Sending). sending ≡ record { to = asked.server; octets = request })
        (tried asked request lines tries (λ found. ended ending) come).sends }
{}

/// The status is 0 or 1 only where all packets were tried. What the devices told of the run is then one exchange for each
/// packet: its octets, how often they were sent, and its reply, which is accepted for those octets and is printed, or none.
/// The status is 0 exactly where each packet got an Access-Accept, an Accounting-Response or an Access-Challenge, and 1
/// exactly where one got an Access-Reject or no reply (radclient(1)).
pub fn status_says_what_packets_got()
    ensures { (words : List (List ℕ)) (files_before files_now : Option FilesTold) (faults_before faults_now : ℕ) (before now : Seen) (status : Status)
        → number_of status ≤ 1 → Ends words files_before files_now faults_before faults_now before now status
        → (exchanges : List Exchange) × IsWholeRun words files_before files_now before now exchanges
        × ((number_of status ≡ 0) ↔ AllGood exchanges) × ((number_of status ≡ 1) ↔ OneBad exchanges) }
{}

/// Whatever the words are, what they ask for is in its range: a secret of 1 to 128 octets, 1 to 10,000 packets of each group,
/// 1 to 100 sends of a packet, and 1 to 3,600 answers of the wire behind each. So each packet of a whole run was sent.
pub fn words_ask_within_their_ranges()
    ensures { (words : List (List ℕ)) (line : Line) → line_of words ≡ Some line → IsInRange line.asked }
{}

/// The groups of a file that is taken are its lines, parted where a line has nothing but blanks; parts without a line are
/// left out, and the pairs of a group are those of its lines, in order. Each line is empty or can be read, and there are 4,096
/// groups at most (radclient(1)).
pub fn groups_are_parted_by_empty_lines()
    ensures groups { (text : List ℕ) (groups : List PairLists) → groups_of text ≡ Ok groups
        → pairs_of_groups groups ≡ map pairs_of_lines (parted (lines_of text)) }
    ensures right { (text : List ℕ) (groups : List PairLists) → groups_of text ≡ Ok groups
        → AllByRecursion IsRight (lines_of text) × (length groups ≤ 4096) }
{}

/// The fault of a file that isn't taken is its first line that is wrong, by its number: a line that can't be read, or that
/// begins the 4,097th group. Each line before it is empty or can be read (radclient(1)).
pub fn the_fault_is_the_first_wrong_line()
    ensures { (text : List ℕ) (fault : LineFault) → groups_of text ≡ Err fault → IsFirstWrong (lines_of text) fault }
{}
