// The opcode table. One entry a code: the kind is the number of the code's row in specs/Sheet.antt, as `decode::made` takes it. An
// undefined code has kind 0, no cycle and no byte. (An Option in each place misses the bound of a run's step: docs/PERFORMANCE.md.)
ghost use Rattle.std.specs.Prelude.{◌≡◌, ◌<◌, length, IfSome};
ghost use Rattle.isa.specs.Sheet.{entry_of, rows_of};
ghost use Rattle.isa.specs.Table.{entry_as};
ghost use Rattle.isa.specs.declared.Set.TheVariants.{Nec};

use crate::Set;

// What the table says of a code.
#[derive(Clone, Copy)]
pub struct Entry {
    pub bytes: u8,
    pub cycles: u8,
    pub kind: u8,
}

// NEC's codes: Intel's and two more.
#[rattlefmt::skip]
static TABLE: [Entry; 256] = [
    Entry { kind: 0x60, cycles: 1, bytes: 1 }, // 00 NOP
    Entry { kind: 0x61, cycles: 1, bytes: 1 }, // 01 HALT
    Entry { kind: 0x51, cycles: 2, bytes: 1 }, // 02 OUTL BUS,A
    Entry { kind: 0x01, cycles: 2, bytes: 2 }, // 03 ADD A,#d
    Entry { kind: 0x1F, cycles: 2, bytes: 2 }, // 04 JMP 000H + d
    Entry { kind: 0x2A, cycles: 1, bytes: 1 }, // 05 EN I
    Entry { kind: 0x00, cycles: 0, bytes: 0 }, // 06
    Entry { kind: 0x0D, cycles: 1, bytes: 1 }, // 07 DEC A
    Entry { kind: 0x4B, cycles: 2, bytes: 1 }, // 08 INS A,BUS
    Entry { kind: 0x4A, cycles: 2, bytes: 1 }, // 09 IN A,P1
    Entry { kind: 0x4A, cycles: 2, bytes: 1 }, // 0A IN A,P2
    Entry { kind: 0x00, cycles: 0, bytes: 0 }, // 0B
    Entry { kind: 0x4C, cycles: 2, bytes: 1 }, // 0C MOVD A,P4
    Entry { kind: 0x4C, cycles: 2, bytes: 1 }, // 0D MOVD A,P5
    Entry { kind: 0x4C, cycles: 2, bytes: 1 }, // 0E MOVD A,P6
    Entry { kind: 0x4C, cycles: 2, bytes: 1 }, // 0F MOVD A,P7
    Entry { kind: 0x55, cycles: 1, bytes: 1 }, // 10 INC @R0
    Entry { kind: 0x55, cycles: 1, bytes: 1 }, // 11 INC @R1
    Entry { kind: 0x1B, cycles: 2, bytes: 2 }, // 12 JB0 t
    Entry { kind: 0x04, cycles: 2, bytes: 2 }, // 13 ADDC A,#d
    Entry { kind: 0x56, cycles: 2, bytes: 2 }, // 14 CALL 000H + d
    Entry { kind: 0x2B, cycles: 1, bytes: 1 }, // 15 DIS I
    Entry { kind: 0x26, cycles: 2, bytes: 2 }, // 16 JTF t
    Entry { kind: 0x0E, cycles: 1, bytes: 1 }, // 17 INC A
    Entry { kind: 0x54, cycles: 1, bytes: 1 }, // 18 INC R0
    Entry { kind: 0x54, cycles: 1, bytes: 1 }, // 19 INC R1
    Entry { kind: 0x54, cycles: 1, bytes: 1 }, // 1A INC R2
    Entry { kind: 0x54, cycles: 1, bytes: 1 }, // 1B INC R3
    Entry { kind: 0x54, cycles: 1, bytes: 1 }, // 1C INC R4
    Entry { kind: 0x54, cycles: 1, bytes: 1 }, // 1D INC R5
    Entry { kind: 0x54, cycles: 1, bytes: 1 }, // 1E INC R6
    Entry { kind: 0x54, cycles: 1, bytes: 1 }, // 1F INC R7
    Entry { kind: 0x3F, cycles: 1, bytes: 1 }, // 20 XCH A,@R0
    Entry { kind: 0x3F, cycles: 1, bytes: 1 }, // 21 XCH A,@R1
    Entry { kind: 0x00, cycles: 0, bytes: 0 }, // 22
    Entry { kind: 0x31, cycles: 2, bytes: 2 }, // 23 MOV A,#d
    Entry { kind: 0x1F, cycles: 2, bytes: 2 }, // 24 JMP 100H + d
    Entry { kind: 0x59, cycles: 1, bytes: 1 }, // 25 EN TCNTI
    Entry { kind: 0x23, cycles: 2, bytes: 2 }, // 26 JNT0 t
    Entry { kind: 0x0B, cycles: 1, bytes: 1 }, // 27 CLR A
    Entry { kind: 0x3E, cycles: 1, bytes: 1 }, // 28 XCH A,R0
    Entry { kind: 0x3E, cycles: 1, bytes: 1 }, // 29 XCH A,R1
    Entry { kind: 0x3E, cycles: 1, bytes: 1 }, // 2A XCH A,R2
    Entry { kind: 0x3E, cycles: 1, bytes: 1 }, // 2B XCH A,R3
    Entry { kind: 0x3E, cycles: 1, bytes: 1 }, // 2C XCH A,R4
    Entry { kind: 0x3E, cycles: 1, bytes: 1 }, // 2D XCH A,R5
    Entry { kind: 0x3E, cycles: 1, bytes: 1 }, // 2E XCH A,R6
    Entry { kind: 0x3E, cycles: 1, bytes: 1 }, // 2F XCH A,R7
    Entry { kind: 0x40, cycles: 1, bytes: 1 }, // 30 XCHD A,@R0
    Entry { kind: 0x40, cycles: 1, bytes: 1 }, // 31 XCHD A,@R1
    Entry { kind: 0x1B, cycles: 2, bytes: 2 }, // 32 JB1 t
    Entry { kind: 0x00, cycles: 0, bytes: 0 }, // 33
    Entry { kind: 0x56, cycles: 2, bytes: 2 }, // 34 CALL 100H + d
    Entry { kind: 0x5A, cycles: 1, bytes: 1 }, // 35 DIS TCNTI
    Entry { kind: 0x27, cycles: 2, bytes: 2 }, // 36 JT0 t
    Entry { kind: 0x0A, cycles: 1, bytes: 1 }, // 37 CPL A
    Entry { kind: 0x00, cycles: 0, bytes: 0 }, // 38
    Entry { kind: 0x52, cycles: 2, bytes: 1 }, // 39 OUTL P1,A
    Entry { kind: 0x52, cycles: 2, bytes: 1 }, // 3A OUTL P2,A
    Entry { kind: 0x00, cycles: 0, bytes: 0 }, // 3B
    Entry { kind: 0x4D, cycles: 2, bytes: 1 }, // 3C MOVD P4,A
    Entry { kind: 0x4D, cycles: 2, bytes: 1 }, // 3D MOVD P5,A
    Entry { kind: 0x4D, cycles: 2, bytes: 1 }, // 3E MOVD P6,A
    Entry { kind: 0x4D, cycles: 2, bytes: 1 }, // 3F MOVD P7,A
    Entry { kind: 0x11, cycles: 1, bytes: 1 }, // 40 ORL A,@R0
    Entry { kind: 0x11, cycles: 1, bytes: 1 }, // 41 ORL A,@R1
    Entry { kind: 0x5B, cycles: 1, bytes: 1 }, // 42 MOV A,T
    Entry { kind: 0x0F, cycles: 2, bytes: 2 }, // 43 ORL A,#d
    Entry { kind: 0x1F, cycles: 2, bytes: 2 }, // 44 JMP 200H + d
    Entry { kind: 0x5E, cycles: 1, bytes: 1 }, // 45 STRT CNT
    Entry { kind: 0x24, cycles: 2, bytes: 2 }, // 46 JNT1 t
    Entry { kind: 0x16, cycles: 1, bytes: 1 }, // 47 SWAP A
    Entry { kind: 0x10, cycles: 1, bytes: 1 }, // 48 ORL A,R0
    Entry { kind: 0x10, cycles: 1, bytes: 1 }, // 49 ORL A,R1
    Entry { kind: 0x10, cycles: 1, bytes: 1 }, // 4A ORL A,R2
    Entry { kind: 0x10, cycles: 1, bytes: 1 }, // 4B ORL A,R3
    Entry { kind: 0x10, cycles: 1, bytes: 1 }, // 4C ORL A,R4
    Entry { kind: 0x10, cycles: 1, bytes: 1 }, // 4D ORL A,R5
    Entry { kind: 0x10, cycles: 1, bytes: 1 }, // 4E ORL A,R6
    Entry { kind: 0x10, cycles: 1, bytes: 1 }, // 4F ORL A,R7
    Entry { kind: 0x09, cycles: 1, bytes: 1 }, // 50 ANL A,@R0
    Entry { kind: 0x09, cycles: 1, bytes: 1 }, // 51 ANL A,@R1
    Entry { kind: 0x1B, cycles: 2, bytes: 2 }, // 52 JB2 t
    Entry { kind: 0x07, cycles: 2, bytes: 2 }, // 53 ANL A,#d
    Entry { kind: 0x56, cycles: 2, bytes: 2 }, // 54 CALL 200H + d
    Entry { kind: 0x5F, cycles: 1, bytes: 1 }, // 55 STRT T
    Entry { kind: 0x28, cycles: 2, bytes: 2 }, // 56 JT1 t
    Entry { kind: 0x0C, cycles: 1, bytes: 1 }, // 57 DA A
    Entry { kind: 0x08, cycles: 1, bytes: 1 }, // 58 ANL A,R0
    Entry { kind: 0x08, cycles: 1, bytes: 1 }, // 59 ANL A,R1
    Entry { kind: 0x08, cycles: 1, bytes: 1 }, // 5A ANL A,R2
    Entry { kind: 0x08, cycles: 1, bytes: 1 }, // 5B ANL A,R3
    Entry { kind: 0x08, cycles: 1, bytes: 1 }, // 5C ANL A,R4
    Entry { kind: 0x08, cycles: 1, bytes: 1 }, // 5D ANL A,R5
    Entry { kind: 0x08, cycles: 1, bytes: 1 }, // 5E ANL A,R6
    Entry { kind: 0x08, cycles: 1, bytes: 1 }, // 5F ANL A,R7
    Entry { kind: 0x03, cycles: 1, bytes: 1 }, // 60 ADD A,@R0
    Entry { kind: 0x03, cycles: 1, bytes: 1 }, // 61 ADD A,@R1
    Entry { kind: 0x5C, cycles: 1, bytes: 1 }, // 62 MOV T,A
    Entry { kind: 0x00, cycles: 0, bytes: 0 }, // 63
    Entry { kind: 0x1F, cycles: 2, bytes: 2 }, // 64 JMP 300H + d
    Entry { kind: 0x5D, cycles: 1, bytes: 1 }, // 65 STOP TCNT
    Entry { kind: 0x00, cycles: 0, bytes: 0 }, // 66
    Entry { kind: 0x15, cycles: 1, bytes: 1 }, // 67 RRC A
    Entry { kind: 0x02, cycles: 1, bytes: 1 }, // 68 ADD A,R0
    Entry { kind: 0x02, cycles: 1, bytes: 1 }, // 69 ADD A,R1
    Entry { kind: 0x02, cycles: 1, bytes: 1 }, // 6A ADD A,R2
    Entry { kind: 0x02, cycles: 1, bytes: 1 }, // 6B ADD A,R3
    Entry { kind: 0x02, cycles: 1, bytes: 1 }, // 6C ADD A,R4
    Entry { kind: 0x02, cycles: 1, bytes: 1 }, // 6D ADD A,R5
    Entry { kind: 0x02, cycles: 1, bytes: 1 }, // 6E ADD A,R6
    Entry { kind: 0x02, cycles: 1, bytes: 1 }, // 6F ADD A,R7
    Entry { kind: 0x06, cycles: 1, bytes: 1 }, // 70 ADDC A,@R0
    Entry { kind: 0x06, cycles: 1, bytes: 1 }, // 71 ADDC A,@R1
    Entry { kind: 0x1B, cycles: 2, bytes: 2 }, // 72 JB3 t
    Entry { kind: 0x00, cycles: 0, bytes: 0 }, // 73
    Entry { kind: 0x56, cycles: 2, bytes: 2 }, // 74 CALL 300H + d
    Entry { kind: 0x2C, cycles: 1, bytes: 1 }, // 75 ENT0 CLK
    Entry { kind: 0x1E, cycles: 2, bytes: 2 }, // 76 JF1 t
    Entry { kind: 0x14, cycles: 1, bytes: 1 }, // 77 RR A
    Entry { kind: 0x05, cycles: 1, bytes: 1 }, // 78 ADDC A,R0
    Entry { kind: 0x05, cycles: 1, bytes: 1 }, // 79 ADDC A,R1
    Entry { kind: 0x05, cycles: 1, bytes: 1 }, // 7A ADDC A,R2
    Entry { kind: 0x05, cycles: 1, bytes: 1 }, // 7B ADDC A,R3
    Entry { kind: 0x05, cycles: 1, bytes: 1 }, // 7C ADDC A,R4
    Entry { kind: 0x05, cycles: 1, bytes: 1 }, // 7D ADDC A,R5
    Entry { kind: 0x05, cycles: 1, bytes: 1 }, // 7E ADDC A,R6
    Entry { kind: 0x05, cycles: 1, bytes: 1 }, // 7F ADDC A,R7
    Entry { kind: 0x3C, cycles: 2, bytes: 1 }, // 80 MOVX A,@R0
    Entry { kind: 0x3C, cycles: 2, bytes: 1 }, // 81 MOVX A,@R1
    Entry { kind: 0x62, cycles: 1, bytes: 1 }, // 82 STOP
    Entry { kind: 0x57, cycles: 2, bytes: 1 }, // 83 RET
    Entry { kind: 0x1F, cycles: 2, bytes: 2 }, // 84 JMP 400H + d
    Entry { kind: 0x45, cycles: 1, bytes: 1 }, // 85 CLR F0
    Entry { kind: 0x22, cycles: 2, bytes: 2 }, // 86 JNI t
    Entry { kind: 0x00, cycles: 0, bytes: 0 }, // 87
    Entry { kind: 0x4E, cycles: 2, bytes: 2 }, // 88 ORL BUS,#d
    Entry { kind: 0x50, cycles: 2, bytes: 2 }, // 89 ORL P1,#d
    Entry { kind: 0x50, cycles: 2, bytes: 2 }, // 8A ORL P2,#d
    Entry { kind: 0x00, cycles: 0, bytes: 0 }, // 8B
    Entry { kind: 0x4F, cycles: 2, bytes: 1 }, // 8C ORLD P4,A
    Entry { kind: 0x4F, cycles: 2, bytes: 1 }, // 8D ORLD P5,A
    Entry { kind: 0x4F, cycles: 2, bytes: 1 }, // 8E ORLD P6,A
    Entry { kind: 0x4F, cycles: 2, bytes: 1 }, // 8F ORLD P7,A
    Entry { kind: 0x3D, cycles: 2, bytes: 1 }, // 90 MOVX @R0,A
    Entry { kind: 0x3D, cycles: 2, bytes: 1 }, // 91 MOVX @R1,A
    Entry { kind: 0x1B, cycles: 2, bytes: 2 }, // 92 JB4 t
    Entry { kind: 0x58, cycles: 2, bytes: 1 }, // 93 RETR
    Entry { kind: 0x56, cycles: 2, bytes: 2 }, // 94 CALL 400H + d
    Entry { kind: 0x42, cycles: 1, bytes: 1 }, // 95 CPL F0
    Entry { kind: 0x25, cycles: 2, bytes: 2 }, // 96 JNZ t
    Entry { kind: 0x44, cycles: 1, bytes: 1 }, // 97 CLR C
    Entry { kind: 0x47, cycles: 2, bytes: 2 }, // 98 ANL BUS,#d
    Entry { kind: 0x48, cycles: 2, bytes: 2 }, // 99 ANL P1,#d
    Entry { kind: 0x48, cycles: 2, bytes: 2 }, // 9A ANL P2,#d
    Entry { kind: 0x00, cycles: 0, bytes: 0 }, // 9B
    Entry { kind: 0x49, cycles: 2, bytes: 1 }, // 9C ANLD P4,A
    Entry { kind: 0x49, cycles: 2, bytes: 1 }, // 9D ANLD P5,A
    Entry { kind: 0x49, cycles: 2, bytes: 1 }, // 9E ANLD P6,A
    Entry { kind: 0x49, cycles: 2, bytes: 1 }, // 9F ANLD P7,A
    Entry { kind: 0x37, cycles: 1, bytes: 1 }, // A0 MOV @R0,A
    Entry { kind: 0x37, cycles: 1, bytes: 1 }, // A1 MOV @R1,A
    Entry { kind: 0x00, cycles: 0, bytes: 0 }, // A2
    Entry { kind: 0x3A, cycles: 2, bytes: 1 }, // A3 MOVP A,@A
    Entry { kind: 0x1F, cycles: 2, bytes: 2 }, // A4 JMP 500H + d
    Entry { kind: 0x46, cycles: 1, bytes: 1 }, // A5 CLR F1
    Entry { kind: 0x00, cycles: 0, bytes: 0 }, // A6
    Entry { kind: 0x41, cycles: 1, bytes: 1 }, // A7 CPL C
    Entry { kind: 0x36, cycles: 1, bytes: 1 }, // A8 MOV R0,A
    Entry { kind: 0x36, cycles: 1, bytes: 1 }, // A9 MOV R1,A
    Entry { kind: 0x36, cycles: 1, bytes: 1 }, // AA MOV R2,A
    Entry { kind: 0x36, cycles: 1, bytes: 1 }, // AB MOV R3,A
    Entry { kind: 0x36, cycles: 1, bytes: 1 }, // AC MOV R4,A
    Entry { kind: 0x36, cycles: 1, bytes: 1 }, // AD MOV R5,A
    Entry { kind: 0x36, cycles: 1, bytes: 1 }, // AE MOV R6,A
    Entry { kind: 0x36, cycles: 1, bytes: 1 }, // AF MOV R7,A
    Entry { kind: 0x38, cycles: 2, bytes: 2 }, // B0 MOV @R0,#d
    Entry { kind: 0x38, cycles: 2, bytes: 2 }, // B1 MOV @R1,#d
    Entry { kind: 0x1B, cycles: 2, bytes: 2 }, // B2 JB5 t
    Entry { kind: 0x20, cycles: 2, bytes: 1 }, // B3 JMPP @A
    Entry { kind: 0x56, cycles: 2, bytes: 2 }, // B4 CALL 500H + d
    Entry { kind: 0x43, cycles: 1, bytes: 1 }, // B5 CPL F1
    Entry { kind: 0x1D, cycles: 2, bytes: 2 }, // B6 JF0 t
    Entry { kind: 0x00, cycles: 0, bytes: 0 }, // B7
    Entry { kind: 0x35, cycles: 2, bytes: 2 }, // B8 MOV R0,#d
    Entry { kind: 0x35, cycles: 2, bytes: 2 }, // B9 MOV R1,#d
    Entry { kind: 0x35, cycles: 2, bytes: 2 }, // BA MOV R2,#d
    Entry { kind: 0x35, cycles: 2, bytes: 2 }, // BB MOV R3,#d
    Entry { kind: 0x35, cycles: 2, bytes: 2 }, // BC MOV R4,#d
    Entry { kind: 0x35, cycles: 2, bytes: 2 }, // BD MOV R5,#d
    Entry { kind: 0x35, cycles: 2, bytes: 2 }, // BE MOV R6,#d
    Entry { kind: 0x35, cycles: 2, bytes: 2 }, // BF MOV R7,#d
    Entry { kind: 0x00, cycles: 0, bytes: 0 }, // C0
    Entry { kind: 0x00, cycles: 0, bytes: 0 }, // C1
    Entry { kind: 0x00, cycles: 0, bytes: 0 }, // C2
    Entry { kind: 0x00, cycles: 0, bytes: 0 }, // C3
    Entry { kind: 0x1F, cycles: 2, bytes: 2 }, // C4 JMP 600H + d
    Entry { kind: 0x2F, cycles: 1, bytes: 1 }, // C5 SEL RB0
    Entry { kind: 0x29, cycles: 2, bytes: 2 }, // C6 JZ t
    Entry { kind: 0x34, cycles: 1, bytes: 1 }, // C7 MOV A,PSW
    Entry { kind: 0x53, cycles: 1, bytes: 1 }, // C8 DEC R0
    Entry { kind: 0x53, cycles: 1, bytes: 1 }, // C9 DEC R1
    Entry { kind: 0x53, cycles: 1, bytes: 1 }, // CA DEC R2
    Entry { kind: 0x53, cycles: 1, bytes: 1 }, // CB DEC R3
    Entry { kind: 0x53, cycles: 1, bytes: 1 }, // CC DEC R4
    Entry { kind: 0x53, cycles: 1, bytes: 1 }, // CD DEC R5
    Entry { kind: 0x53, cycles: 1, bytes: 1 }, // CE DEC R6
    Entry { kind: 0x53, cycles: 1, bytes: 1 }, // CF DEC R7
    Entry { kind: 0x19, cycles: 1, bytes: 1 }, // D0 XRL A,@R0
    Entry { kind: 0x19, cycles: 1, bytes: 1 }, // D1 XRL A,@R1
    Entry { kind: 0x1B, cycles: 2, bytes: 2 }, // D2 JB6 t
    Entry { kind: 0x17, cycles: 2, bytes: 2 }, // D3 XRL A,#d
    Entry { kind: 0x56, cycles: 2, bytes: 2 }, // D4 CALL 600H + d
    Entry { kind: 0x30, cycles: 1, bytes: 1 }, // D5 SEL RB1
    Entry { kind: 0x00, cycles: 0, bytes: 0 }, // D6
    Entry { kind: 0x39, cycles: 1, bytes: 1 }, // D7 MOV PSW,A
    Entry { kind: 0x18, cycles: 1, bytes: 1 }, // D8 XRL A,R0
    Entry { kind: 0x18, cycles: 1, bytes: 1 }, // D9 XRL A,R1
    Entry { kind: 0x18, cycles: 1, bytes: 1 }, // DA XRL A,R2
    Entry { kind: 0x18, cycles: 1, bytes: 1 }, // DB XRL A,R3
    Entry { kind: 0x18, cycles: 1, bytes: 1 }, // DC XRL A,R4
    Entry { kind: 0x18, cycles: 1, bytes: 1 }, // DD XRL A,R5
    Entry { kind: 0x18, cycles: 1, bytes: 1 }, // DE XRL A,R6
    Entry { kind: 0x18, cycles: 1, bytes: 1 }, // DF XRL A,R7
    Entry { kind: 0x00, cycles: 0, bytes: 0 }, // E0
    Entry { kind: 0x00, cycles: 0, bytes: 0 }, // E1
    Entry { kind: 0x00, cycles: 0, bytes: 0 }, // E2
    Entry { kind: 0x3B, cycles: 2, bytes: 1 }, // E3 MOVP3 A,@A
    Entry { kind: 0x1F, cycles: 2, bytes: 2 }, // E4 JMP 700H + d
    Entry { kind: 0x2D, cycles: 1, bytes: 1 }, // E5 SEL MB0
    Entry { kind: 0x21, cycles: 2, bytes: 2 }, // E6 JNC t
    Entry { kind: 0x12, cycles: 1, bytes: 1 }, // E7 RL A
    Entry { kind: 0x1A, cycles: 2, bytes: 2 }, // E8 DJNZ R0,t
    Entry { kind: 0x1A, cycles: 2, bytes: 2 }, // E9 DJNZ R1,t
    Entry { kind: 0x1A, cycles: 2, bytes: 2 }, // EA DJNZ R2,t
    Entry { kind: 0x1A, cycles: 2, bytes: 2 }, // EB DJNZ R3,t
    Entry { kind: 0x1A, cycles: 2, bytes: 2 }, // EC DJNZ R4,t
    Entry { kind: 0x1A, cycles: 2, bytes: 2 }, // ED DJNZ R5,t
    Entry { kind: 0x1A, cycles: 2, bytes: 2 }, // EE DJNZ R6,t
    Entry { kind: 0x1A, cycles: 2, bytes: 2 }, // EF DJNZ R7,t
    Entry { kind: 0x33, cycles: 1, bytes: 1 }, // F0 MOV A,@R0
    Entry { kind: 0x33, cycles: 1, bytes: 1 }, // F1 MOV A,@R1
    Entry { kind: 0x1B, cycles: 2, bytes: 2 }, // F2 JB7 t
    Entry { kind: 0x00, cycles: 0, bytes: 0 }, // F3
    Entry { kind: 0x56, cycles: 2, bytes: 2 }, // F4 CALL 700H + d
    Entry { kind: 0x2E, cycles: 1, bytes: 1 }, // F5 SEL MB1
    Entry { kind: 0x1C, cycles: 2, bytes: 2 }, // F6 JC t
    Entry { kind: 0x13, cycles: 1, bytes: 1 }, // F7 RLC A
    Entry { kind: 0x32, cycles: 1, bytes: 1 }, // F8 MOV A,R0
    Entry { kind: 0x32, cycles: 1, bytes: 1 }, // F9 MOV A,R1
    Entry { kind: 0x32, cycles: 1, bytes: 1 }, // FA MOV A,R2
    Entry { kind: 0x32, cycles: 1, bytes: 1 }, // FB MOV A,R3
    Entry { kind: 0x32, cycles: 1, bytes: 1 }, // FC MOV A,R4
    Entry { kind: 0x32, cycles: 1, bytes: 1 }, // FD MOV A,R5
    Entry { kind: 0x32, cycles: 1, bytes: 1 }, // FE MOV A,R6
    Entry { kind: 0x32, cycles: 1, bytes: 1 }, // FF MOV A,R7
];

// A code's entry in NEC's set.
#[tactic(auto, using(crate::proofs::Entries::nec_held))]
fn nec_entry(code: u8) -> Entry
    ensures { result ≡ entry_of Nec code }
{
    TABLE[code as usize]
}

// The last kind of a set: its rows stand first in the sheet.
fn last_kind(set: Set) -> u8
    ensures { result ≡ length (rows_of set) }
{
    match set {
        Set::Intel => 96,
        Set::Nec => 98,
    }
}

// A code's entry in a set, or None if the set leaves the code undefined.
#[tactic(auto, using(crate::proofs::Entries::entry_within), unfolding(crate::specs::Choice::pick))]
pub fn entry_of(set: Set, code: u8) -> Option<Entry>
    ensures entry { entry_as result ≡ entry_of set code }
    ensures defined { IfSome result (λ e. 0 < e.bytes) }
{
    let entry = nec_entry(code);
    if entry.bytes == 0 || last_kind(set) < entry.kind {
        None
    } else {
        Some(entry)
    }
}
