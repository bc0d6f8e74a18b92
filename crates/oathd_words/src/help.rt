//! The help texts of `oathd` and of its commands.

/// The help of the program, after its commands.
pub(crate) const PROGRAM_HELP: &str = "\
oathd init creates the database of a node, and oathd serve serves the node. No
moving factor of a token (counter or time step) is accepted twice, whichever
member is asked, and whenever nodes stop and start again. The commands lines,
sim and cluster keep nothing between two runs. oathd check prints what the
members of a cluster share.

The status is 0 if the command succeeds. It is 1 after a fault of the input,
memory, the clock or the output, which standard error names. It is 2 if the
words are wrong, 3 if a store failed, and 4 if a socket failed.";

/// The help of the command `lines`, after its options.
pub(crate) const LINES_HELP: &str = "\
Standard input is a users file, a line %% and the lines of clients. Each line of
a client is answered by a line on standard output.

A users file has a token on each line, in fields with blanks between:
    TYPE USER PASSWORD SECRET [COUNTER [LAST]]
TYPE is one of these:
    HOTP, HOTP/E          a token that counts events (HOTP, RFC 4226)
    HOTP/T30, HOTP/T60    a token that counts time steps of 30 or 60 seconds
                          (TOTP, RFC 6238)
Its codes have 6 digits, or 6, 7 or 8 with /6, /7 or /8 after HOTP/E, HOTP/T30
or HOTP/T60: HOTP/E/8. They are made with SHA-1. A time token may name another
hash after its digits, /SHA256 or /SHA512: HOTP/T30/6/SHA256. PASSWORD is - for
none, + for one that is not checked here, or one that must be given. SECRET is
in hexadecimal.

A factor is the counter of an event token or the time step of a time token. The
floor of a token is its first factor that is not used up. The floor of an event
token is COUNTER, or 0 without it, or COUNTER + 1 if LAST is the code of
COUNTER. The floor of a time token lies past the moment of the import and the
skew.

A line of a client is CLIENT MOMENT REQUEST, with single spaces: a number,
seconds since 1970-01-01 00:00:00 UTC, and one of
    CHECK NONCE USER CODE PASSWORD
    RESYNC NONCE USER CODE NEXT-CODE PASSWORD
A line that a client sends again gets its old answer, so each submission has a
NONCE of its own.

No factor of a token is accepted twice within a run. Nothing is kept between two
runs: floors and the throttle begin with each users file.

Example, which prints OK 1 0 and OK 2 8:
    printf '%s\\n' \\
        'HOTP silver - 3132333435363738393031323334353637383930' %% \\
        '7 100 CHECK 1 silver 755224 -' \\
        '7 110 RESYNC 2 silver 162583 399871 -' | oathd lines";

/// The help of the command `sim`, after its options.
pub(crate) const SIM_HELP: &str = "\
Standard input is a users file as the command lines takes it, a line %% and a
script. N nodes begin with the users file, each with a store in memory. Nothing
passes between them but what the script delivers.

Each line of a script is one event, with single spaces. Empty lines and lines
that begin with # are no events. Events are counted from 0.
    client NODE CLIENT MOMENT REQUEST   a client's line arrives
    deliver NODE K                      the datagram sent as number K arrives
    tick NODE                           some time passes
    noise NODE FROM HEX                 bytes arrive from FROM's address
    restart NODE                        the node restarts
    lost NODE                           the node's store is lost
    anew NODE BOOT NEXT ..              the node gets a replacement store, at a
                                        boot, with a floor for each token
    cut kept EVENT, cut lost EVENT      the node stops inside one of the first
                                        four: what it writes is kept or lost,
                                        what it sends is lost, and it restarts
After all events there may be one line of the nodes that still run, more than
half of all, followed by rounds. In a round one of these nodes is asked, and
everything that they send each other arrives:
    live A B ..
    round NODE CLIENT MOMENT REQUEST

At the end it prints what was accepted, what was answered and how many datagrams
were sent:
    pass BEGAN ENDED NODE TOKEN LO HI
    answer EVENT NODE CLIENT TEXT
    sent COUNT

Example, which prints pass 0 2 1 0 0 0, answer 2 1 7 OK a 0 and sent 3:
    printf '%s\\n' \\
        'HOTP silver - 3132333435363738393031323334353637383930' %% \\
        'client 1 7 100 CHECK a silver 755224 -' \\
        'deliver 2 0' 'deliver 1 2' | oathd sim 3";

/// The help of the command `cluster`, after its options.
pub(crate) const CLUSTER_HELP: &str = "\
USERS is a users file as the command lines takes it. N nodes begin with it, each
with a store in memory and a UDP socket of its own on this machine. Standard
input has the lines of a client.

A line is NODE MOMENT REQUEST, with single spaces: the number of a node, seconds
since 1970-01-01 00:00:00 UTC, and what the client says to that node. The nodes
then receive in turn until the reply arrives, and one of these lines is printed:
    NODE REPLY
    NODE -              no reply arrived within 64 rounds

The addresses of a cluster file are not used, and the nodes tag under the key of
the file itself.

The status is that of the command lines, or 3 if a node failed, or 4 if a socket
failed.

Example, which prints 1 OK a 0 and 2 NO b INVALID:
    echo 'HOTP silver - 3132333435363738393031323334353637383930' > users
    printf '%s\\n' '1 100 CHECK a silver 755224 -' \\
        '2 100 CHECK b silver 755224 -' | oathd cluster users 3";

/// The help of the command `init`, after its options.
pub(crate) const INIT_HELP: &str = "\
Creates DB if there is no such file, and in it the store of node I: the floor of
each token of the users file (its first factor that is not used up), its
throttle, the node's votes and the node's passes. A store that is there stays
as it is. All members of a cluster begin with the same users file, each with a
DB of its own. Only the commands of oathd open a DB, one at a time.

The step of a time token at the moment is used up, and so are as many steps
after it as --skew and --drift say: their codes may have been used elsewhere. So
by default the token is refused for up to two time steps after init.

With --lost it replaces a lost database while other nodes go on. Destroy the old
one first. I is one of the lost nodes, which are at most half of the members.
Each other node has a floors file, which oathd floors printed after the last of
them was lost. With --anew the databases of all nodes are replaced. The floors
files are then of stopped nodes, and each majority has one of them. A user of
none of these files begins as at any import.

With --begins it creates the store of a node by names: a token is known by its
name, and not by its row. No member of the cluster has served before. With
--lost or --anew and a cluster file that gives names, the floors files are by
names, and --since is wanted: they were read in a later second. Then the new
store has their rows, also those of retired tokens, and after them the new
tokens of the users file.

The status is 1 if floors files have a fault or don't say enough. It is 3 if a
store is there, or the database fails.

Example, which prints nothing, and another for a lost node:
    echo 'HOTP silver - 3132333435363738393031323334353637383930' > users
    oathd init node1.db users --node 1
    oathd init node3.db users --node 3 --lost 3 --floors one --floors two";

/// The usage of the command `serve`, in its two forms.
pub(crate) const SERVE_USAGE: &str = "\
oathd serve [OPTIONS] --node <I> --cluster <FILE> <DB> <USERS>
       oathd serve [OPTIONS] --node <I> --members <A,B,..> --key <PATH>
                   <DB> <USERS>";

/// The help of the command `serve`, after its options.
pub(crate) const SERVE_HELP: &str = "\
DB is the store of node I, which oathd init created, and USERS its users file.
The node has a UDP socket at the I-th of the addresses, and answers each
datagram of a client, which is one line:
    CHECK NONCE USER CODE PASSWORD
    RESYNC NONCE USER CODE NEXT-CODE PASSWORD
A datagram from the address of another member is that member's vote. The moment
is the system's. The node ends after T receives, each of which waits at most 200
milliseconds, and prints nothing without --log.

No factor of a token is accepted twice, whichever member is asked, and whenever
nodes stop and start again. Answers come as long as more than half of the
members run and hear each other.

The status is 3 if the database fails, and 4 if the socket fails.

With --log it prints a line for each answer, with the client's address, the
answer as it was sent, and the user. It never prints a code, a password or a
secret. Lines that it can't write are dropped, and counted in a later line. With
--log-to it sends the same lines to a syslog, and never waits for it.

With --reload it takes USERS again when the file changes, if the cluster file
gives names. A file that has a fault or no token is not taken, and the log says
so.

A cluster file stands for --members, --key and the numbers of a search. Nodes
with one hear each other only if their files say the same, and their users files
have the same users, in the same order. oathd check prints what they share.

With --clients it takes lines that are sealed under the key of a client, and
answers under that key. A clients file has these lines:
    client NUMBER KEY       0 to 65535, and a key of oathd new-key
    plain ADDRESS           of this machine, whose lines are not sealed
    ahead SECONDS           how far ahead a client's clock may be, 1 to 60

Example of a member of a cluster, and of a node alone:
    oathd serve node1.db users --node 1 --cluster cluster
    oathd serve node1.db users --node 1 --members 127.0.0.1:7001 --key key";

/// The help of the command `export`, after its options.
pub(crate) const EXPORT_HELP: &str = "\
USERS is the users file of the store. Prints a users file with the floors of the
store.

The status is 3 if the database fails, or holds no such store.";

/// The help of the command `audit`, after its options.
pub(crate) const AUDIT_HELP: &str = "\
USERS is the users file of the store. Prints this line for each code that node I
accepted, in order:
    pass NUMBER TOKEN LO HI BOOT SEQ
NUMBER counts from 1. TOKEN is the number of the token in the users file, from
0. LO to HI are the factors that are used up. BOOT and SEQ are the number of the
node's vote.

The status is 3 if the database fails, or holds no store of node I.";

/// The help of the command `migrate`, after its options.
pub(crate) const MIGRATE_HELP: &str = "\
DB is the store of node I of a version of oathd without clock drift, and USERS
its users file. The store then keeps the drift of each token, 0 at first, and
all else stays. All is done in one step, or nothing.

With --cluster, DB is a store of the present version without names. Its tokens
get the names that FILE gives, in the order of USERS, and it is bound to the
cluster. Don't edit USERS before all members of the cluster are migrated. Give
--members-were then, since DB doesn't say how many members the cluster had, and
votes count among as many members alone. A row of another kind than its token
in USERS is refused: an event token has no drift, and a time token's floor is
not before 2004.

The status is 3 if the database fails, holds no such store, or is of the present
version.";

/// The help of the command `floors`, after its options.
pub(crate) const FLOORS_HELP: &str = "\
DB is the store of node I, which is stopped, and USERS its users file. Prints a
floors file, for oathd init and oathd level of other nodes:
    floors 1 NODE MEMBERS BOOT MOMENT TOKENS
    USER NEXT                       for each token
NEXT is the floor of the token at the node. The store stays as it is.

If FILE gives names, the file has a row for each row of the store, and its last
line is a MAC under the cluster's key. USERS is not read then:
    floors 2 NODE MEMBERS BOOT MOMENT ROWS NAMES LIFE
    NAME NEXT                       for each row
    mac DIGITS

The status is 3 if the database fails, or holds no store of node I.";

/// The help of the command `level`, after its options.
pub(crate) const LEVEL_HELP: &str = "\
DB is the store of node I, which is stopped, and USERS its users file. Raises
the floor of each token to the greatest of the floors files, if that is greater.
All else stays. So a node that was away for days has at once what the others
would tell it one by one.

With --cluster the store and the floors files are by names. Each file is of this
cluster. USERS is not read then.

The status is 1 if a floors file has a fault, and 3 if the database fails, or
holds no store of node I.";

/// The help of the command `gates`, after its options.
pub(crate) const GATES_HELP: &str = "\
DB is the store of node I, which is stopped, and USERS its users file. Prints
this line for each token with failures in a row:
    gate USER FAILURES UNTIL
The token is closed until the moment UNTIL, in seconds since 1970.

The status is 3 if the database fails, or holds no store of node I.";

/// The help of the command `unlock`, after its options.
pub(crate) const UNLOCK_HELP: &str = "\
DB is the store of node I, which is stopped, and USERS its users file. Forgets
the failures of the user at this node, so that the token is open. All else
stays.

The status is 1 if there is no such user, and 3 if the database fails, or holds
no store of node I.";

/// The help of the command `roster`, after its options.
pub(crate) const ROSTER_HELP: &str = "\
DB is the store of node I, which is stopped, and USERS its users file. Prints
this line for each row of the store:
    row NUMBER NAME FLOOR USER
NAME is the name of the token by the cluster file, and FLOOR its first factor
that is not used up. USER is - for a retired token, which is in no row of USERS.

With --drop-retired it drops the row of each retired token whose secret another
row has with a greater floor, or a row of USERS with one that is not lower. Then
it prints how many rows it dropped, and how many there are:
    dropped D
    rows N of 65536
A dropped token that comes back begins at the floor that the other row has. The
rows get other numbers. Passes of dropped rows leave the audit list, so print it
first.

The status is 3 if the database fails, or holds no store of node I.";

/// The usage of the command `status`, in its two forms.
pub(crate) const STATUS_USAGE: &str = "\
oathd status [OPTIONS] --operator <KEYFILE> <ADDRESS>
       oathd status --operator <KEYFILE> --cluster <FILE>";

/// The help of the command `status`, after its options.
pub(crate) const STATUS_HELP: &str = "\
Asks the running node at ADDRESS, and prints a line for each of its numbers:
node, boot, version, clock, started, fingerprint, book, tokens, pending, closed,
received, replied, accepted, refused, ticks, unopened and member.

With --cluster it asks all members, and prints a table with a row for each:
    NODE BOOT HEARD TOKENS FINGERPRINT BOOK NOTE
The status is then 0 if each note is ok, 1 if a majority of the members answers,
and else 2.

The commands gates, floors, audit, roster and unlock ask a running node too, if
they have --operator and ADDRESS in place of DB and USERS.

KEYFILE is the key of an operator or a reader, which the node's clients file
names. The status is 1 if the node refuses, and 4 if no answer comes.";

/// The help of the command `drain`, after its options.
pub(crate) const DRAIN_HELP: &str = "\
Asks the running node at ADDRESS to end. It ends when no line waits for votes,
after two seconds at the latest. KEYFILE is the key of an operator.

The status is 1 if the node refuses, and 4 if no answer comes.";

/// The help of the commands to a running node that have another form, after their options.
pub(crate) const ASKING_HELP: &str = "\
Asks the running node at ADDRESS, and prints what the command prints of a
stopped node's DB. KEYFILE is the key of an operator or a reader, which the
node's clients file names. A reader may not unlock.

The status is 1 if the node refuses, and 4 if no answer comes.";

/// The help of the command `check`, after its options.
pub(crate) const CHECK_HELP: &str = "\
FILE is the cluster file of oathd serve, and USERS its users file. Reads both as
oathd serve does, with the file of the key, and prints these lines:
    life TEXT
    names TEXT                      if FILE gives names
    member NUMBER ADDRESS           for each member
    look-ahead COUNT
    skew COUNT
    range COUNT
    drift COUNT
    tokens TYPE COUNT               for HOTP/E, HOTP/T30 and HOTP/T60
    rows COUNT                      all tokens, if FILE gives names
    fingerprint DIGITS
    book DIGITS                     if FILE gives names
Members that print the same fingerprint hear each other: their files say the
same members, settings and life, and they have the same users and the same key.
Members that print different ones ignore each other.

If FILE gives names, the fingerprint says nothing of the users. Members that
print the same book have the same rows in their users files, in any order.

It notes on standard error which rows of the users file are ignored, a file
without tokens, and an even number of members.";

/// The help of the command `secret`, after its options.
pub(crate) const SECRET_HELP: &str = "\
Other users of the machine can see HEX while the program runs, and it stays in
the shell's history. So give secrets of test tokens there, and other secrets on
standard input: its digits, and at most one line end after them.

Examples, of which each prints MZXW6YTBOI======:
    oathd secret 666f6f626172
    echo 666f6f626172 | oathd secret --stdin";

/// The help of the command `new-key`, after its options.
pub(crate) const NEW_KEY_HELP: &str = "\
Prints 32 random bytes of the system in hexadecimal: a key for a clients file,
and for the key file of the client.

Example:
    umask 077; oathd new-key > radius.key";

/// The help of the command `new-cluster`, after its options.
pub(crate) const NEW_CLUSTER_HELP: &str = "\
Prints the lines of a cluster file but those of its members: a word of 16 random
bytes for the names of its tokens, a life, and the name of its key file. All
members have the same file, and the word is never changed.

Example, for one member:
    umask 077; oathd new-key > key
    (echo 'member 1 127.0.0.1:7101'; oathd new-cluster) > cluster
    oathd init node1.db users --node 1 --cluster cluster --begins";

/// The help of the command `version`, after its options.
pub(crate) const VERSION_HELP: &str = "Prints what oathd --version prints.";
