//! The text of `--help` for each command, below its arguments.

pub(crate) const COPS_HELP: &str =
    "'cops COMMAND --help' says what a command reads and writes, and how it ends.

A command that reads a file for more than two seconds says on standard error,
once a second, how many lines it has read, if that is a terminal.";

pub(crate) const RUN_HELP: &str =
    "Reads a script from standard input: a head, and then one event a line. A line
'+ ...' admits a tenant, with the words of a tenant's line in the head; '- NAME'
closes one.
Writes one reply line to standard output for each line after the head.

Status  Standard error              When
0                                   all was read and answered
1       cops: E23                   out of memory
1       cops: E26                   reading failed
1       cops: E27                   writing failed
2       cops: configuration line N  the head is bad; nothing is written
2       this, or what is wrong      --help was given, or the arguments are wrong

With status 1 some first replies may have been written.

Example:
  cops run < demo/tenants.script";

pub(crate) const SOLO_HELP: &str =
    "Reads a script from standard input: a head, and then one event a line.
Writes one reply line to standard output for each line of this tenant: the
replies of 'cops run' if no other tenant is in the head, is admitted or sends a
line. A tenant that is closed and admitted again starts anew.

Status  Standard error              When
0                                   all was read, and the tenant answered
1       cops: E23                   out of memory
1       cops: E26                   reading failed
1       cops: E27                   writing failed
2       cops: configuration line N  the head is bad; nothing is written
2       cops: E02                   all was read, and no such tenant was ever open;
                                    nothing is written
2       this, or what is wrong      --help was given, or the arguments are wrong

With status 1 some first replies may have been written.

Example:
  cops solo acme < demo/tenants.script";

pub(crate) const AUDIT_HELP: &str =
    "Reads a script from standard input: a head, and then one event a line.
Writes its audit to standard output: the layout, a head with the tenants that
are open at the end, and then each of their node calls with its reply, one a
line.
With --tenant it writes this tenant's part alone, as 'cops extract' cuts it out
of the audit. No other tenant's name, token or line is in it.

Status  Standard error              When
0                                   all was read, and the audit is written
1       cops: E23                   out of memory, in cops or in a reply
1       cops: E26                   reading failed
1       cops: E27                   writing failed
2       cops: configuration line N  the head is bad; nothing is written
2       cops: E02                   all was read, and no tenant NAME is open at
                                    the end; nothing is written
2       this, or what is wrong      --help was given, or the arguments are wrong

With status 1 a prefix of the audit may have been written.

Example:
  cops audit --tenant acme < demo/tenants.script";

pub(crate) const REPLAY_HELP: &str =
    "Reads an audit of layout 1 or 2 from standard input, and computes this tenant's
replies again, on nodes of its own. Writes one line to standard output:
'same N' if none of its N lines differs, or 'differs PLACE', the place of the
first that differs among its lines, counted from 1.

Status  Standard error              When
0                                   all was read, and that line is written
1       cops: E23                   out of memory
1       cops: E26                   reading failed
1       cops: E27                   writing failed
2       cops: configuration line N  the head is bad; nothing is written
2       cops: E02                   the head has no such tenant; nothing is written
2       cops: E29                   layout 1, and a clock of this tenant is too
                                    great for layout 2; nothing is written
2       this, or what is wrong      --help was given, or the arguments are wrong

With status 1 a prefix of that line may have been written.

Example:
  cops audit < demo/tenants.script | cops replay acme";

pub(crate) const EXTRACT_HELP: &str =
    "Reads an audit of layout 1 or 2 from standard input, and writes this tenant's
part to standard output: the layout, the sizes, the tenant's line of the head,
and its records. The part has no other tenant's name or token. A replay of it
has the result of a replay of the whole audit.

Status  Standard error              When
0                                   all was read, and the part is written
1       cops: E23                   out of memory
1       cops: E26                   reading failed
1       cops: E27                   writing failed
2       cops: configuration line N  the head is bad; nothing is written
2       cops: E02                   the head has no such tenant; nothing is written
2       this, or what is wrong      --help was given, or the arguments are wrong

With status 1 a prefix of the part may have been written.

Example:
  cops audit < demo/tenants.script | cops extract acme";

pub(crate) const MIGRATE_HELP: &str =
    "Reads an audit of layout 1 from standard input: its head, and then its records.
Writes it to standard output as an audit of layout 2.

Status  Standard error              When
0                                   all was read and is written
1       cops: E23                   out of memory
1       cops: E26                   reading failed
1       cops: E27                   writing failed
2       cops: configuration line N  line N is not valid in a head of layout 1
2       cops: E01 line N            line N is no record of layout 1
2       cops: E29 line N            a clock in line N is too great for layout 2
2       this, or what is wrong      --help was given, or the arguments are wrong

With status 1 a prefix of the audit may have been written, and with status 2 a
prefix of what comes before line N.

Example:
  examples/read input an_old_audit_is_migrated | cops migrate";

pub(crate) const SERVE_HELP: &str =
    "Reads a head from standard input: the lines of a script up to 'begin'. Then it
serves clients, who each name one of the tenants by its token. It ends after so
many connections, or at a line 'end' on standard input. Then it writes the audit
of the tenants that are open to standard output. The end of standard input ends
nothing.

Meanwhile it follows lines of standard input. '+ ...' admits a tenant, with the
words of a tenant's line in the head; '- NAME' closes one, and its connections
get E02 from then on. Each line gets a line on standard error: '- admitted NAME',
'- closed NAME', or why it is refused, as '- E28'.

At 'end' it stops accepting. Open connections may finish for as many seconds as
a connection may be idle, or for 5. A connection is idle if it sends nothing,
takes nothing, or doesn't finish a frame.

Standard error says where it listens, what it served, and before E26 why.

Status  Standard error              When
0                                   the audit is written
1       cops: E23                   out of memory
1       cops: E26                   standard input or the listener failed, nothing
                                    can listen there, or a thread didn't start
1       cops: E27                   writing failed
2       cops: configuration line N  the head is bad; nothing is written
2       this, or what is wrong      --help was given, or the arguments are wrong

With status 1 a prefix of the audit may have been written; all of it if the
listener failed.

Example:
  head -4 demo/tenants.script | cops serve 127.0.0.1:7000 --connections 1 > audit.txt

A client for it, from another shell:
  PYTHONPATH=clients/python python3 -m cops_client 127.0.0.1 7000 00000000-0000-0000-0000-000000000001 0";
