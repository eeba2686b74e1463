// The rows of the table.
ghost use Rattle.telling.specs.Row.{Fine};

use model::number;

// The row of a number: name, meaning, usual cause, remedy and place, with bars between them. A number that is no answer has an empty one.
// It is as long as the texts are.
#[tactic(auto, unfolding(output::specs::Digits::all_from))]
pub fn row(number: u32) -> &'static [u8]
    ensures { Fine result.now }
{
    match number {
        // The outcomes where no question has a no.
        number::PASSED => {
            b"passed|\
              no question of the check has a no|\
              tables, memory and registers are as they should be|\
              nothing to mend: make the next check, or run|\
              0, 0"
        }
        super::HALTED => {
            b"halted|\
              the run carried out a halt|\
              the routine has come to its end|\
              nothing to mend: the routine gets no more turns|\
              block A, code index B"
        }
        number::PAUSED => {
            b"paused|\
              the budget of blocks is finished, and the routine has not halted|\
              a turn that is shorter than the routine|\
              nothing to mend: go on with the block, registers and memory returned|\
              block A, code index B"
        }
        // The length of a table, and field counts.
        number::TABLE_LENGTH => {
            b"table length|\
              a table is not whole rows, or too short or too long: types are 1 to 64 rows of 9 words, tags 0 to 64 words, \
              blocks 1 to 256 rows of 9 words, code 1 to 8,192 words|\
              a row cut short, or an empty table|\
              hand in whole rows, as many as the table may have|\
              table A (0 types, 1 tags, 2 blocks, 3 code)"
        }
        number::FIELD_COUNT => {
            b"field count|\
              a record type has no field, or more than 8|\
              a row of zeros kept for a type to come|\
              give the type 1 to 8 fields, or take its row out|\
              type row A"
        }
        // The type words of records, and tags.
        number::FIELD_TYPE => {
            b"field type|\
              a field's type word has an unknown kind, a record type that is not in the table, a dependency that is no field \
              of the record, or something in a part that its kind does not use; or a word past the last field is not 0|\
              a type word taken from an annotation, where 0 to 7 are registers|\
              name a field by its number, 0 to the field count less 1, and a constant by 8 more than it is; let all else be \
              0, but for bit 31 of a field that is locked|\
              type row A"
        }
        number::TAG => {
            b"tag|\
              a tag stands for a record type that is not in the table|\
              a type taken out, its tag kept|\
              let each tag name a row of the type table|\
              tag A"
        }
        // Blocks: lengths and annotations.
        number::BLOCK_LENGTH => {
            b"block length|\
              a block is not 1 to 32 instructions long, or ends past the code; or code is left over after the last block, \
              and the row is the block count|\
              an instruction added to the code and not to its block's length|\
              let the lengths add up to the code's length, and split a block that is too long|\
              block row A"
        }
        number::ANNOTATION => {
            b"annotation|\
              a type word of a block's annotation has an unknown kind, a record type that is not in the table, or something \
              in a part that its kind does not use; or it has the mark of a locked field|\
              record types counted from 1, a part left from another kind, a type word taken from a record, or a row left blank \
              for a call that takes no offered rows|\
              write the word anew: 0 in bit 31, kind in bits 30 to 24, record type in 23 to 16, dependencies in 15 to 8 and 7 to \
              0, and 0 where the kind has none|\
              block row A"
        }
        // The form of an instruction.
        number::INSTRUCTION => {
            b"instruction|\
              the opcode is unknown, a part that it does not use is not 0, a register is not 0 to 7, or a divisor is 0|\
              a part in the wrong bits, or a word in the code that is no instruction|\
              write the instruction anew: opcode in bits 31 to 24, a in 23 to 20, b in 19 to 16, c in 15 to 0, and 0 in what \
              the opcode does not use|\
              block A, code index B"
        }
        number::BLOCK_END => {
            b"block end|\
              a halt, jump or branch stands inside a block, or a block's last instruction is none of them|\
              a branch in the middle of a block, or a block length that is one off|\
              end the block at the branch, and let another begin after it|\
              block A, code index B"
        }
        number::TARGET => {
            b"target|\
              the block that a jump or branch goes to does not exist, or the block after a branch does not|\
              a branch in the last block, or blocks counted from 1|\
              add the block that is missing, or name one below the block count|\
              block A, code index B"
        }
        // Loads and stores.
        number::REFERENCE => {
            b"reference|\
              the base of a load or store is not known to be a reference|\
              a pointer that was not tested for 0, whose tag was not tested, or that may stand before or at the end of its run|\
              test Maybe and Tagged by opcode 11, Run and From by opcode 12, and declare what the test shows in the annotation of \
              the block that follows|\
              block A, code index B"
        }
        number::OFFSET => {
            b"offset|\
              the offset of a load or store is not below the record's size|\
              a field of another record type, or fields counted from 1|\
              use an offset below the field count of the base's record type|\
              block A, code index B"
        }
        number::LOCKED_FIELD => {
            b"locked field|\
              a store goes to a field that is locked: routines load it, and none may write it|\
              a correction written over what was weighed|\
              store the new word in another field; or, if routines may write this one, take bit 31 out of its type word|\
              block A, code index B"
        }
        // Records that are half written.
        number::OTHER_RECORD => {
            b"other record|\
              a record is half written, and the base of a load or store is not the very value that it was opened through|\
              a second record read between two stores to the first|\
              load before the first store, or after the record is whole|\
              block A, code index B"
        }
        number::OPEN_RECORD => {
            b"open record|\
              a record is half written at a block's end|\
              a plot's stage set in one block, its pointer in the next; or a stored word that is not known to fit its field|\
              make all stores of one change in one block, and store what its type shows to fit|\
              block A, code index B"
        }
        // The edges from a block's end.
        number::TAKEN_EDGE => {
            b"taken edge|\
              the registers are not known to meet the annotation of the block that a jump or a taken branch goes to|\
              an annotation that asks for more than was tested|\
              test it before the jump, or ask for less|\
              block A, code index B"
        }
        number::UNTAKEN_EDGE => {
            b"untaken edge|\
              the registers are not known to meet the annotation of the block after a branch that is not taken|\
              an annotation that asks for what holds on the taken edge alone|\
              exchange the two blocks, or ask for less|\
              block A, code index B"
        }
        // Where a run starts, what it may reach.
        number::START_BLOCK => {
            b"start block|\
              the block to start at does not exist|\
              blocks counted from 1, or the block of another routine|\
              name a block below the block count|\
              0, 0"
        }
        number::MEMORY_LENGTH => {
            b"memory length|\
              memory is not 1 to 16,384 words long|\
              no memory handed in, or a whole database in place of a part of it|\
              hand in 1 to 16,384 words|\
              0, 0"
        }
        number::ADDRESS => {
            b"address|\
              a load or store of a run goes past memory|\
              a run of a routine, with memory or registers, that the checks have not passed|\
              check routine, memory and registers first: a run that they allow does not come here|\
              block A, code index B"
        }
        // Allocations, and the fields of records.
        number::ALLOCATION => {
            b"allocation|\
              the list is not whole rows of 2 words, or is longer than 4,096 rows; or a record has a type that is not in the \
              table, starts at 0 or before the end of the record before it, or ends past memory|\
              rows that are not in the order of their starts|\
              sort the rows by start, let no two records overlap, and leave word 0 free|\
              allocation row A"
        }
        number::FIELD => {
            b"field|\
              a word of a record does not meet its field's type|\
              a record whose fields were never set, or memory written by other than checked routines|\
              set the field right before any routine runs|\
              allocation row A, field B"
        }
        // Registers.
        number::REGISTER => {
            b"register|\
              a register does not meet the annotation of the block to start at|\
              a pointer to a record of another type, or a register left at 0|\
              hand in what the annotation asks for|\
              register A"
        }
        // Annotations left blank, and the rows offered for them.
        number::OFFERED_ROWS => {
            b"offered rows|\
              more than 3 annotations are left blank; or some are, and the offered list is not 0 to 8 whole rows of 8 words, or \
              a row of it has a type word that an annotation may not have|\
              a block length before the eight type words of an offered row, or a blank row offered|\
              write annotations in until 3 are blank; offer at most 8 rows of the type words of r0 to r7 alone, each word made \
              as in an annotation|\
              block row A if a fourth is blank, else row A of the offered list"
        }
        number::NO_CHOICE => {
            b"no choice|\
              no choice of offered rows for the annotations that are left blank makes the check accept the routine|\
              no row offered that a blank block needs, or a fault of the code that no annotation mends|\
              offer the row that is missing; if all are offered, write them in: the check then answers which question has a no, \
              and where|\
              block row A, the lowest that is blank"
        }
        // A line that is no request.
        super::MALFORMED => {
            b"no request|\
              the line is none of the four requests: another first word, a number that is too large or no number, numbers missing \
              or left over, or tables of more than 135,168 words together|\
              a count that differs from the number of words after it|\
              mend the line at this byte; the lines after it are answered all the same|\
              byte A of the line, counted from 0"
        }
        _ => b"",
    }
}
