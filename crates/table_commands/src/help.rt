//! What the help of each command says behind its options: an input, the exit statuses, and what
//! each fault usually means.

/// The day of the program.
pub(crate) const VERSION: &str = "2026-11-26";

/// Behind the options of `price`.
pub(crate) const PRICE: &str = "\
Times are in units of 100 ms, money in the smallest coin, a rate is money a minute.
Input, with --after for example:

  before,after
  0,0
  600,0
  600,300

Exit status:
  0  all of the answer was printed
  1  the words or the input are refused
  2  the input or memory failed; without a line, the output failed

A fault is one line on standard error, and then nothing is printed:
  prepaid: arguments
      No options of price: mostly a file name (use < FILE), an option given twice, a unit
      such as 60s, or a number out of its range
  prepaid: input: TooLong
      More than 16777216 bytes
  prepaid: run: Device, OutOfMemory
      Standard input or memory failed
  prepaid: reports row N: KIND
      Rows count from 1, which is the header; empty lines don't count

Kinds:
  Csv          Another number of fields than the header, perhaps an open quote
  Header       Nearly always the separator, or columns that a spreadsheet added
  TooManyRows  More than 10000 rows besides the header
  Number       Digits only, 0 to 864000: no plus, no point, no space
  Order        These times can't follow those of the row before: a time fell, the time before
               the switch changed after it, together they are above 864000, or there is time
               after a switch and no --after";

/// Behind the options of `replay`.
pub(crate) const REPLAY: &str = "\
Times are in units of 100 ms, money in the smallest coin, a rate is money a minute.
Input, for example:

  seat,op,call,x1,x2,x3,x4,x5,x6,x7
  0,reserve,1,50,1000,400,600,50,0,0
  0,settle,1,0,n,300,,,,
  0,return,1,,,,,,,

Exit status:
  0  all of the answer was printed
  1  the words or the input are refused
  2  the input or memory failed; without a line, the output failed

A fault is one line on standard error, and then nothing is printed:
  prepaid: arguments
      No options of replay: mostly a file name (use < FILE), an option given twice, or a
      number out of its range
  prepaid: input: TooLong
      More than 16777216 bytes
  prepaid: run: Device, OutOfMemory
      Standard input or memory failed
  prepaid: ops row N: KIND
      Rows count from 1, which is the header; empty lines don't count

Kinds:
  Csv          Another number of fields than the header, perhaps an open quote
  Header       Nearly always the separator, or columns that a spreadsheet added
  TooManyRows  More than 10000 rows besides the header
  What         op is none of credit, reserve, settle, return; or x2 of a settle is neither n nor s
  Number       Digits only, in the smallest coin, within the range: no plus, no point, no space
  Empty        A field has something that the operation doesn't take";

/// Behind the options of `run`.
pub(crate) const RUN: &str = "\
Times are in units of 100 ms: 1 <= delay <= tccd <= least <= wanted <= 864000, and tssf is 1
to 864000. A moment is in units of 100 ms from 1 January 1970 on, by the operator's own clock,
or YYYY-MM-DDTHH:MM:SS. Money is in the smallest coin, a rate is money a minute.
Input, for example:

  prefix,from,fee,rate
  49,00:00,50,1000
  %%
  kind,key,value
  account,7,1500
  subscriber,491700001,7
  %%
  moment,call,what,x,y
  0,1,start,491700001,4930
  100,1,answer,,
  400,1,disconnect,1,

Exit status:
  0  all of the answer was printed, or written into its files
  1  the words or the input are refused
  2  the run or a file failed; without a line, the output failed

With --into FOLDER the files lines.txt, book.csv, calls.csv and trace.csv of a folder that is
there get what the run prints without an option, with --book, with --calls and with --trace. All
are of one run. They replace files of their names once all four are written; after a fault no
file is half written.

Behind the answer, with status 0, a line on standard error may say what accounts refused:
  prepaid: refused: 2 HistoryFull, 1 OutOfMemory
      How many messages and recharges met a refusal, and why. OutOfRange: mostly a recharge
      of 0. HistoryFull: an account has 1000000 entries

A fault is one line on standard error, and then nothing is printed:
  prepaid: arguments
      No options of run: mostly a file name (use < FILE), an option given twice, a unit such
      as 60s, two of --book, --calls, --trace and --into, or --clock without one of the last
      three, or --parts beside --trace, --into or more than one worker, or --threads without
      --parts
  prepaid: input: Config
      A time is out of the relation above
  prepaid: input: TooLong
      More than 16777216 bytes
  prepaid: input: Parts
      A line that is %% alone comes exactly twice: behind the tariff and behind the setup
  prepaid: tariff row N: KIND
  prepaid: setup row N: KIND
  prepaid: script row N: KIND
      Rows count from 1, which is the header of that table; empty lines don't count
  prepaid: into: Device
      A file of FOLDER couldn't be written, or there is no such folder
  prepaid: run: Workers
      0 workers or more than 16
  prepaid: run: Mismatch, Channel, Thread, GateClosed, Device, OutOfMemory
      A book, a worker, a thread, a gate, standard input or memory failed

Kinds:
  Csv             Another number of fields than the header, perhaps an open quote
  Header          Nearly always the separator, or columns that a spreadsheet added
  TooManyRows     More than 10000 rows besides the header (a script: 1000000), or the 1001st
                  account
  Digits          A prefix is 0 to 15 digits
  From            A time of day is HH:MM, 00:00 to 23:59
  Money           A fee or a rate is digits only, 0 to 1000000000: no plus, no point
  Free            Free units are digits only, 0 to 864000
  First           The least time that is billed is digits only, 0 to 864000
  Step            A billing step is digits only, 1 to 864000
  Days            The days of a row are digits from 1 (Monday) to 7 (Sunday), rising, or none
  NoMidnightBand  A prefix has no row from 00:00, or not on each day of the week
  What            A kind is account or subscriber; what happens is start, answer, busy,
                  noanswer, routefail, abandon, disconnect or recharge
  Number          Digits only, in the smallest coin, within the range: no plus, no point; a moment
                  may be YYYY-MM-DDTHH:MM:SS, a day of the calendar; a party is 1 to 15 digits
  Empty           A field has something that the row doesn't take
  Order           This moment is below that of the row before; often the row before is wrong
  Repeated        A prefix with the same start and a day in common, an account, a subscriber
                  or a start of a call is there already
  Unknown         In a setup accounts are above their subscribers; in a script a call's start
                  is above its other rows, and a recharge is of an account of the setup";

/// Behind the options of `audit`.
pub(crate) const AUDIT: &str = "\
A book of more than 16777216 bytes or 1000000 rows is audited with --long. Each book that
run --book prints passes that. With --rows a line about the first wrong row of an account is
behind its no: its reply, and what is right there. The header is row 1. With --lines the line of
an account that run prints is in the place of its yes, and the lines of its calls are behind all.
Input, a book as run --book prints it, for example:

  account,seat,op,call,x1,x2,x3,x4,x5,x6,x7,reply,y1,y2,y3
  7,,opening,,1500,,,,,,,,,,
  7,1,reserve,1,50,1000,,600,50,0,0,granted,600,more,450
  7,1,settle,1,2,n,300,,,,,settled,550,,450
  7,1,return,1,,,,,,,,returned,550,,950

Exit status:
  0  each account has yes
  1  the words or the input are refused
  2  the input or memory failed; without a line, the output failed
  3  an account has no: its history isn't the one that an account would have

A fault is one line on standard error, and then nothing is printed:
  prepaid: arguments
      No options of audit: mostly a file name (use < FILE), or an option given twice
  prepaid: input: TooLong
      More than 16777216 bytes, without --long
  prepaid: run: Device, OutOfMemory
      Standard input or memory failed
  prepaid: book row N: KIND
      Rows count from 1, which is the header; empty lines don't count

Kinds:
  Csv          Another number of fields than the header, perhaps an open quote
  Header       Nearly always the separator, or columns that a spreadsheet added
  TooManyRows  More than 1000000 rows besides the header, with --long more than 4294967293
  What         A word that op, reply, x2 of a settle or y2 of a grant never has
  Number       Digits only, within the range: no plus, no point, no space
  Empty        A field has something that the row doesn't take
  Repeated     A second opening of an account
  Unknown      An entry is above its account's opening";

/// Behind the options of `quote`.
pub(crate) const QUOTE: &str = "\
A moment is in units of 100 ms from 1 January 1970 on, by the operator's own clock, or
YYYY-MM-DDTHH:MM:SS, or HH:MM of that first day, a Thursday. A time is in units of 100 ms,
money in the smallest coin, a rate is money a minute. A call changes its rate once, at its switch.
Input, for example:

  prefix,from,fee,rate
  49,00:00,50,1000

Exit status:
  0  all of the answer was printed
  1  the words or the input are refused
  2  the input or memory failed; without a line, the output failed

A fault is one line on standard error, and then nothing is printed:
  prepaid: arguments
      No options of quote: mostly a file name (use < FILE), an option given twice, a unit
      such as 60s, or a number out of its range
  prepaid: input: TooLong
      More than 16777216 bytes
  prepaid: run: Device, OutOfMemory
      Standard input or memory failed
  prepaid: tariff row N: KIND
      Rows count from 1, which is the header; empty lines don't count

Kinds:
  Csv             Another number of fields than the header, perhaps an open quote
  Header          Nearly always the separator, or columns that a spreadsheet added
  TooManyRows     More than 10000 rows besides the header
  Digits          A prefix is 0 to 15 digits
  From            A time of day is HH:MM, 00:00 to 23:59
  Money           A fee or a rate is digits only, 0 to 1000000000: no plus, no point
  Free            Free units are digits only, 0 to 864000
  First           The least time that is billed is digits only, 0 to 864000
  Step            A billing step is digits only, 1 to 864000
  Days            The days of a row are digits from 1 (Monday) to 7 (Sunday), rising, or none
  Repeated        A prefix with the same start and a day in common is there already
  NoMidnightBand  A prefix has no row from 00:00, or not on each day of the week";

/// Behind the options of `rate`.
pub(crate) const RATE: &str = "\
Each row is printed again with the columns prefix, before, after, price, difference and fault.
The difference is the price less what was charged. Moments and times are in units of 100 ms,
moments also YYYY-MM-DDTHH:MM:SS. Money is in the smallest coin, a rate is money a minute. A call
changes its rate once, at the first switch behind its answer.
Input, for example:

  prefix,from,fee,rate
  49,00:00,50,1000
  %%
  called,answer,time,paid
  4930,100,300,550

Columns are called, answer and paid where no option names another; paid may be missing. The
times are before and after where the header has both, else time, else end. The header has a
column once.

Exit status:
  0  all was printed, and no row differs or has a fault
  1  the words or the input are refused
  2  the input or memory failed; without a line, the output failed
  3  all was printed, and a row differs or has a fault

Behind the rows, with --summary, a line on standard error says what was counted:
  prepaid: rated: 2 rows, 1 differ, 0 faults, charged 1100, by the tariff 1150, over 0, under 50
      over: how much more was charged than the tariff says, under: how much less

A fault is one line on standard error, and then nothing is printed, but where the input or
memory failed in the middle of the rows:
  prepaid: arguments
      No options of rate: mostly a file name (use < FILE), an option given twice, --before
      without --after, or two ways to find the time
  prepaid: input: TooLong
      The tariff has more than 16777216 bytes
  prepaid: input: Parts
      No line is %% alone: one has to be between the tariff and the records
  prepaid: tariff row N: KIND
      Rows count from 1, which is the header; empty lines don't count
  prepaid: records row N: KIND
      Only row 1 and Header: a column that is looked for isn't there, or is there twice
  prepaid: run: Device, OutOfMemory
      Standard input or memory failed

Kinds:
  Csv             Another number of fields than the header, perhaps an open quote
  Header          Nearly always the separator, or columns that a spreadsheet added
  TooManyRows     More than 10000 rows besides the header
  Digits          A prefix is 0 to 15 digits
  From            A time of day is HH:MM, 00:00 to 23:59
  Money           A fee or a rate is digits only, 0 to 1000000000: no plus, no point
  Free            Free units are digits only, 0 to 864000
  First           The least time that is billed is digits only, 0 to 864000
  Step            A billing step is digits only, 1 to 864000
  Days            The days of a row are digits from 1 (Monday) to 7 (Sunday), rising, or none
  Repeated        A prefix with the same start and a day in common is there already
  NoMidnightBand  A prefix has no row from 00:00, or not on each day of the week

Faults of a row, in its column fault; the next row is rated all the same:
  TooLong  More than 65536 bytes
  Csv      Another number of fields than the header, perhaps an open quote
  Number   Digits only, within the range: no plus, no point; a moment may be
           YYYY-MM-DDTHH:MM:SS; a number called is 1 to 15 digits
  Order    The end is below the answer, or more than a day behind it
  noroute  The number called begins with no prefix of the tariff";

/// Behind the options of `serve`.
pub(crate) const SERVE: &str = "\
Each message is printed again, and behind it what the service says to it, before a further line
is waited for. Times are in units of 100 ms: 1 <= tccd <= least <= wanted <= 864000. A moment is
in units of 100 ms from 1 January 1970 on, by the operator's own clock, or YYYY-MM-DDTHH:MM:SS.
Money is in the smallest coin, a rate is money a minute.
Input, for example:

  prefix,from,fee,rate
  49,00:00,50,1000
  %%
  kind,key,value
  account,7,1500
  subscriber,491700001,7
  %%
  moment,number,call,from,what,x1,x2,x3,x4
  0,,1,switch,InitialDP,491700001,4930,,
  100,,1,switch,EventReportBCSM,answer,,notify,
  400,,1,switch,ApplyChargingReport,inactive,n,300,
  400,,1,switch,EventReportBCSM,disconnect,1,interrupted,
  402,,1,switch,Ended,,,,

The rows are those of a trace that a switch or an operator says; number may be empty. At the
end of the input, with --lines, --book or --calls, a line %% is printed and what run would print.

With --log FILE each message is in FILE, on the disk, before it is answered. A service that is
started again with the same input and the same FILE hears these messages first, in silence; with
--again N the rows of those from number N on are printed again. What is behind the last LF of
FILE is cut off.

A bad line changes nothing, and has the row ,,,service,fault,KIND,LINE,, where the header of the
rows is line 1. An empty line is passed over.

Exit status:
  0  the input has ended, and all was printed
  1  the words, the tariff, the setup or the header are refused
  2  the input, the log, memory or the run failed; without a line, the output failed

A fault is one line on standard error; with status 1 nothing is printed:
  prepaid: arguments
      No options of serve: mostly a file name (use < FILE), an option given twice, a unit such
      as 60s, two of --lines, --book and --calls, or --again without --log
  prepaid: input: Config
      A time is out of the relation above
  prepaid: input: TooLong
      More than 16777216 bytes in the tariff or in the setup
  prepaid: input: Parts
      A line that is %% alone comes behind the tariff and behind the setup
  prepaid: tariff row N: KIND
  prepaid: setup row N: KIND
      Rows count from 1, which is the header of that table; empty lines don't count
  prepaid: messages row N: KIND
      Only row 1 and Header: the header of the messages isn't exactly the one above
  prepaid: log: Other
      FILE is no log, or was begun with another tariff, another setup or other options
  prepaid: log: Device
      FILE couldn't be opened, read, written or synced, it is no plain file, or another process
      has it. Where it fails behind the header, all that came before is answered, and the end is
      printed
  prepaid: log row N: KIND
      A line of FILE is no message, so it was altered; its header is row 1
  prepaid: run: Mismatch, Channel, Thread, Device, OutOfMemory
      A book, a worker, a thread, standard input or memory failed. At Device all that came
      before is answered, and the end is printed

Kinds:
  Csv             Another number of fields than the header, perhaps an open quote
  Header          Nearly always the separator, or columns that a spreadsheet added
  TooManyRows     More than 10000 rows besides the header, or the 1001st account
  Digits          A prefix is 0 to 15 digits
  From            A time of day is HH:MM, 00:00 to 23:59
  Money           A fee or a rate is digits only, 0 to 1000000000: no plus, no point
  Free            Free units are digits only, 0 to 864000
  First           The least time that is billed is digits only, 0 to 864000
  Step            A billing step is digits only, 1 to 864000
  Days            The days of a row are digits from 1 (Monday) to 7 (Sunday), rising, or none
  NoMidnightBand  A prefix has no row from 00:00, or not on each day of the week
  What            A kind is account or subscriber
  Number          Digits only, in the smallest coin, within the range: no plus, no point; a last
                  moment may be YYYY-MM-DDTHH:MM:SS; a party is 1 to 15 digits
  Empty           A field has something that the row doesn't take
  Repeated        A prefix with the same start and a day in common, an account or a subscriber
                  is there already
  Unknown         Accounts are above their subscribers

Faults of a line, the first that fits; the next line is answered all the same:
  TooLong   More than 4096 bytes
  Csv       Not nine fields, perhaps an open quote
  What      A word that says nothing there, or a row of the service
  Number    Digits only, within the range: no plus, no point; a moment may be
            YYYY-MM-DDTHH:MM:SS; a party is 1 to 15 digits
  Empty     A field has something that the message doesn't take
  Repeated  The number is below the next: the message was answered before
  Order     The moment is below that of the last message, or the number above the next";
